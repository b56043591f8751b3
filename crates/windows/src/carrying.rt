// What is carried begins, and changes with the couplings that act.
ghost use Rattle.std.specs.Prelude.{◌≡◌, ℕ, ◌<◌, ◌≤◌, Bool, true, false, length};
ghost use Rattle.design.specs.Table.{Table};
ghost use Rattle.design.specs.SoFar.{Stands};
ghost use Rattle.windows.specs.Rings.{OpenedLatches};
ghost use Rattle.kinds.specs.Both.{both_kind};
ghost use Rattle.windows.specs.Blocks.{has_block};
ghost use Rattle.windows.specs.Carried.{AreRowsOf, Carries, CarriedBegun, SameRows, WithOne, carried_at, window_in};
ghost use Rattle.windows.specs.Effective.{no_delays};

use super::blocks::{BLOCK, BLOCKS, Blocks, Leads};
use super::carried::Carried;
use super::circuit::Circuit;
use super::effective::Effective;
use super::rows::Rows;
use super::sweep::at;
use super::write::tick;
use kinds::DelayKind;
use kinds::both::{Arrivals, Both};
use refusals::Refusal;
use states::counts::MOST_NODES;
use timing::windows::Window;

// Each latch is left with its opening edge, and no path has come to any other node.
fn open_latches(circuit: &Circuit<'_>, leaves: &mut [Arrivals])
    requires { length circuit.now.nodes.now ≤ length leaves.old }
    ensures { OpenedLatches circuit.now (length circuit.now.nodes.now) leaves.old leaves.new }
{
    for v in 0..circuit.nodes.len() {
        if circuit.row(v).is_latch() {
            leaves[v] = Both::start(circuit.start(v));
        }
    }
}

impl<'a, const N: usize> Carried<'a, N> {
    // Fills the tables of what has just begun: no coupling acts, and each latch is left with its opening edge.
    fn fill(&mut self)
        requires delays { self.old.delays.places ≡ no_delays N }
        requires leaves { (v : ℕ) → carried_at self.old v ≡ both_kind.no_path }
        requires stale { (b : ℕ) → b < 256 → has_block self.old.stale b ≡ true }
        ensures carries { (t : Table) → Stands t → AreRowsOf t self.old.rows → Carries t (λ k. false) self.new }
        ensures rows { SameRows self.old.rows self.new.rows }
    {
        self.delays.fill(self.rows.nodes);
        let circuit = self.rows.circuit(&self.delays, &self.leads);
        open_latches(&circuit, &mut self.leaves);
    }

    // Before the first round no coupling acts, and every block is stale. The tables are filled where they stand, since it takes
    // long to copy as large ones as a book may need.
    pub fn begin(rows: &Rows<'a>) -> Result<Carried<'a, N>, Refusal>
        ensures { CarriedBegun rows.now N result }
    {
        if rows.nodes.len() > N || rows.nodes.len() > MOST_NODES {
            return Err(Refusal::Short);
        }
        let mut carried = Carried {
            rows: *rows,
            leads: Leads::of(rows.nodes),
            delays: Effective::none(),
            leaves: [Both::no_path(); N],
            stale: Blocks::all(),
        };
        carried.fill();
        Ok(carried)
    }

    // The coupling of a place acts from now on. Its victim and what the victim leads to may change.
    pub fn act(&mut self, place: usize)
        ensures acts { (t : Table) (S T : ℕ → Bool) → Stands t → place < length t.couplings → S place ≡ false → WithOne place S T → Carries t S self.old → Carries t T self.new }
        ensures windows { (v : ℕ) → window_in self.new v ≡ window_in self.old v }
        ensures rows { SameRows self.old.rows self.new.rows }
    {
        if let Some(coupling) = self.rows.couplings.get(place) {
            self.delays.add(coupling);
            let block = usize::from(coupling.victim) / BLOCK;
            if block < BLOCKS {
                self.stale.add(block);
                self.leads.wake(block, &mut self.stale);
            }
        }
    }

    // The window of a node: from the earliest with which it is left to the latest.
    pub fn window(&self, v: usize) -> Window
        ensures { result ≡ window_in self.now v }
    {
        let leaves = at::<Both>(&self.leaves, v);
        Window {
            begins: tick(leaves.earliest),
            ends: tick(leaves.latest),
        }
    }
}
