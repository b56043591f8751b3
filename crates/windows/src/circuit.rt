// What a sweep goes over.
ghost use Rattle.std.specs.Prelude.{◌≡◌, ◌≤◌, length};
ghost use Rattle.timing.specs.Connections.{row, shift_between, start_at};
ghost use Rattle.windows.specs.Blocks.{blocks_of, nodes_before};
ghost use Rattle.windows.specs.Delays.{delays_at};

use super::blocks::{BLOCK, Leads};
use super::connections::{shift, start_at};
use design::nodes::Node;
use kinds::timings::{Delays, Start};
use schedule::Schedule;

// The rows of the granted nodes, their clock, the delays that they have in effect, and which blocks of them lead to which.
#[derive(Clone, Copy)]
pub(crate) struct Circuit<'a> {
    pub(crate) schedule: &'a Schedule,
    pub(crate) nodes: &'a [Node],
    pub(crate) delays: &'a [Delays],
    pub(crate) leads: &'a Leads,
}

impl<'a> Circuit<'a> {
    // The row of a node; one that is not there is free.
    pub(crate) fn row(&self, k: usize) -> &'a Node
        ensures { result.now ≡ row self.now.nodes.now k }
    {
        match self.nodes.get(k) {
            Some(node) => node,
            None => &Node::Free,
        }
    }

    pub(crate) fn delays(&self, k: usize) -> Delays
        ensures { result ≡ delays_at self.now.delays.now k }
    {
        match self.delays.get(k) {
            Some(delays) => *delays,
            None => Delays {
                least: 0,
                greatest: 0,
            },
        }
    }

    pub(crate) fn shift(&self, from: usize, to: usize) -> i64
        ensures { result ≡ shift_between self.now.schedule.now (row self.now.nodes.now from) (row self.now.nodes.now to) }
    {
        shift(self.schedule, self.row(from), self.row(to))
    }

    pub(crate) fn start(&self, k: usize) -> Start
        ensures { result ≡ start_at self.now.schedule.now (row self.now.nodes.now k) }
    {
        start_at(self.schedule, self.row(k))
    }

    // How many blocks its nodes are in, so that those behind them need not be looked at.
    pub(crate) fn blocks(&self) -> usize
        requires { length self.now.nodes.now ≤ 4096 }
        ensures value { result ≡ blocks_of (length self.now.nodes.now) }
        ensures few { result ≤ 256 }
    {
        (self.nodes.len() + BLOCK - 1) / BLOCK
    }

    // How many nodes stand in the blocks before one.
    pub(crate) fn nodes_before(&self, block: usize) -> usize
        requires { block ≤ 256 }
        ensures { result ≡ nodes_before (length self.now.nodes.now) block }
    {
        self.nodes.len().min(BLOCK * block)
    }
}
