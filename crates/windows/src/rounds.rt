// What a round finds, from what the round before it left.
ghost use Rattle.std.specs.Prelude.{◌≡◌, ℕ, ◌<◌, ◌≤◌, Bool, length};
ghost use Rattle.design.specs.Table.{Table};
ghost use Rattle.design.specs.SoFar.{Stands};
ghost use Rattle.kinds.specs.declared.arrival.Arrival.TheVariants.{NoPath};
ghost use Rattle.paths.specs.Sweeps.{leaving};
ghost use Rattle.windows.specs.Answers.{KeptBeyond};
ghost use Rattle.windows.specs.Blocks.{AllLeads};
ghost use Rattle.windows.specs.Carried.{RoundFound, RoundWritten, window_in};
ghost use Rattle.windows.specs.Found.{Shows};
ghost use Rattle.windows.specs.Rounds.{FilledBy, WindowsSaid, LeftWith, SweptAnew, late_in, early_in, arriving};
ghost use Rattle.windows.specs.Seen.{figure_at, network_of};

use super::blocks::Blocks;
use super::breaches::{early_latch, late_latch};
use super::carried::Carried;
use super::checked::Checked;
use super::circuit::Circuit;
use super::column::Column;
use super::find::{find_earliest, find_latest};
use super::found::Ends;
use super::in_place::{approach, comes};
use super::sweep::leaving;
use kinds::arrival::Arrival;
use kinds::both::{Arrivals, Both};
use kinds::early::Earliest;
use kinds::late::Latest;
use refusals::Refusal;
use states::counts::MOST_NODES;
use timing::windows::Window;

// What arrives at a node where all are at rest: at a latch what comes to it, and elsewhere what the node is left with.
fn arrived(circuit: &Circuit<'_>, leaves: &[Arrivals], v: usize) -> Arrivals
    requires { v < length leaves.now }
    ensures { result ≡ arriving circuit.now leaves.now v }
{
    if circuit.row(v).is_latch() {
        comes::<Both>(circuit, leaves, v)
    } else {
        leaves[v]
    }
}

// Fills a column with the latest arrivals, where all nodes are at rest.
fn latest_arrived(circuit: &Circuit<'_>, leaves: &[Arrivals], column: &mut [Arrival])
    requires leaves_fit { length circuit.now.nodes.now ≤ length leaves.now }
    requires column_fits { length circuit.now.nodes.now ≤ length column.old }
    ensures { FilledBy (length circuit.now.nodes.now) (λ v. (arriving circuit.now leaves.now v).latest) column.old column.new }
{
    for v in 0..circuit.nodes.len() {
        column[v] = arrived(circuit, leaves, v).latest;
    }
}

// And with the earliest.
fn earliest_arrived(circuit: &Circuit<'_>, leaves: &[Arrivals], column: &mut [Arrival])
    requires leaves_fit { length circuit.now.nodes.now ≤ length leaves.now }
    requires column_fits { length circuit.now.nodes.now ≤ length column.old }
    ensures { FilledBy (length circuit.now.nodes.now) (λ v. (arriving circuit.now leaves.now v).earliest) column.old column.new }
{
    for v in 0..circuit.nodes.len() {
        column[v] = arrived(circuit, leaves, v).earliest;
    }
}

// Nodes are left with what sweeps of the latest kind have found.
fn leave_latest(
    circuit: &Circuit<'_>,
    starts: &[Arrival],
    column: &Column<'_, Latest>,
    leaves: &mut [Arrivals],
)
    requires { length circuit.now.nodes.now ≤ length leaves.old }
    ensures { LeftWith (length circuit.now.nodes.now) (leaving (network_of circuit.now) (figure_at NoPath starts.now) (figure_at NoPath column.now.figures.now)) (early_in leaves.old) leaves.old leaves.new }
{
    for v in 0..circuit.nodes.len() {
        leaves[v] = Arrivals {
            latest: leaving::<Latest>(circuit, starts, column.figures, v),
            ..leaves[v]
        };
    }
}

// And with what a sweep of the earliest kind has found.
fn leave_earliest(
    circuit: &Circuit<'_>,
    starts: &[Arrival],
    column: &Column<'_, Earliest>,
    leaves: &mut [Arrivals],
)
    requires { length circuit.now.nodes.now ≤ length leaves.old }
    ensures { LeftWith (length circuit.now.nodes.now) (late_in leaves.old) (leaving (network_of circuit.now) (figure_at NoPath starts.now) (figure_at NoPath column.now.figures.now)) leaves.old leaves.new }
{
    for v in 0..circuit.nodes.len() {
        leaves[v] = Arrivals {
            earliest: leaving::<Earliest>(circuit, starts, column.figures, v),
            ..leaves[v]
        };
    }
}

// Sweeps from the opening edges, which tell where a window has no end. Unless one has none, nodes are left with what the
// sweeps have found.
fn sweep_anew(circuit: &Circuit<'_>, leaves: &mut [Arrivals], column: &mut [Arrival]) -> Ends
    requires few { length circuit.now.nodes.now ≤ 4096 }
    requires leads { AllLeads (network_of circuit.now) circuit.now.leads.now }
    requires leaves_fit { length circuit.now.nodes.now ≤ length leaves.old }
    requires column_fits { length circuit.now.nodes.now ≤ length column.old }
    ensures anew { (t : Table) (S : ℕ → Bool) → Stands t → Shows t S circuit.now → SweptAnew t S circuit.now leaves.new result }
    ensures long { length leaves.new ≡ length leaves.old }
    ensures column { KeptBeyond (length circuit.now.nodes.now) column.old column.new }
{
    let mut starts = [Arrival::NoPath; MOST_NODES];
    let mut latest = Column {
        figures: &mut *column,
    };
    let found = find_latest(circuit, &mut starts, &mut latest);
    if let Ends::NoneAt { .. } = found.ends {
        return found.ends;
    }
    leave_latest(circuit, &starts, &latest, leaves);
    let mut earliest = Column { figures: column };
    find_earliest(circuit, &mut starts, &mut earliest);
    leave_earliest(circuit, &starts, &earliest, leaves);
    found.ends
}

impl<'a, const N: usize> Carried<'a, N> {
    // Visits nodes where figures are not at rest, under the couplings that act, until all are. Answers whether every window
    // has an end. The column is room to work in.
    pub fn find(&mut self, column: &mut [Arrival]) -> Result<Ends, Refusal>
        ensures { RoundFound self.old self.new column.old column.new result }
    {
        if column.len() < self.rows.nodes.len() {
            return Err(Refusal::Short);
        }
        let circuit = self.rows.circuit(&self.delays, &self.leads);
        if approach::<Both>(&circuit, &mut self.leaves, &mut self.stale) {
            return Ok(Ends::All);
        }
        let ends = sweep_anew(&circuit, &mut self.leaves, column);
        if let Ends::All = ends {
            self.stale = Blocks::none();
        }
        Ok(ends)
    }

    // Writes the window of each node.
    fn write_windows(&self, windows: &mut [Window])
        requires { length self.now.rows.nodes.now ≤ length windows.old }
        ensures { WindowsSaid (length self.now.rows.nodes.now) (window_in self.now) windows.old windows.new }
    {
        for v in 0..self.rows.nodes.len() {
            windows[v] = self.window(v);
        }
    }

    // Writes the windows of all nodes, and answers the lowest latches that are late and early. The column is room to work in.
    pub fn finish(&self, windows: &mut [Window], column: &mut [Arrival]) -> Result<Checked, Refusal>
        ensures { RoundWritten self.now windows.old windows.new column.old column.new result }
    {
        let count = self.rows.nodes.len();
        if windows.len() < count || column.len() < count {
            return Err(Refusal::Short);
        }
        let circuit = self.rows.circuit(&self.delays, &self.leads);
        latest_arrived(&circuit, &self.leaves, column);
        let late = late_latch(
            &circuit,
            &Column {
                figures: &mut *column,
            },
        );
        earliest_arrived(&circuit, &self.leaves, column);
        let early = early_latch(&circuit, &Column { figures: column });
        self.write_windows(windows);
        Ok(Checked::Ended { late, early })
    }
}
