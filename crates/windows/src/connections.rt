// What a design's rows say of connections and of where paths start.
ghost use Rattle.std.specs.Prelude.{◌≡◌};
ghost use Rattle.timing.specs.Connections.{fed_from, shift_between, start_at};

use super::edges::{early_opening, late_opening};
use design::nodes::Node;
use kinds::timings::Start;
use schedule::Schedule;

// The nodes that a node is connected from.
pub(crate) fn sources(node: &Node) -> &[u16]
    ensures { result.now ≡ fed_from node.now }
{
    match node {
        Node::Free | Node::Input { .. } => &[],
        Node::Gate { sources, .. } => sources.list(),
        Node::Latch { source, .. } => source.as_slice(),
    }
}

// The shift of a connection.
pub(crate) fn shift(schedule: &Schedule, from: &Node, to: &Node) -> i64
    ensures { result ≡ shift_between schedule.now from.now to.now }
{
    if to.is_latch() || from.phase() != to.phase() {
        schedule
            .forward_shift(from.phase(), to.phase())
            .unwrap_or(0)
    } else {
        0
    }
}

// When paths start at a node.
pub(crate) fn start_at(schedule: &Schedule, node: &Node) -> Start
    ensures { result ≡ start_at schedule.now node.now }
{
    match *node {
        Node::Free | Node::Gate { .. } => Start {
            earliest: 0,
            latest: 0,
        },
        Node::Input {
            earliest,
            latest,
            ..
        } => Start {
            earliest: i64::from(earliest),
            latest: i64::from(latest),
        },
        Node::Latch { phase, .. } => Start {
            earliest: early_opening(schedule, phase),
            latest: late_opening(schedule, phase),
        },
    }
}
