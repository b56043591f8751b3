// The sweeps of the latest and of the earliest kind.
ghost use Rattle.std.specs.Prelude.{◌≡◌, ◌≤◌, ℕ, Bool, true, false, length, drop};
ghost use Rattle.design.specs.Table.{Table};
ghost use Rattle.design.specs.SoFar.{Stands};
ghost use Rattle.timing.specs.Connections.{network};
ghost use Rattle.timing.specs.Figures.{late_start, late_gain};
ghost use Rattle.kinds.specs.declared.arrival.Arrival.TheVariants.{NoPath};
ghost use Rattle.kinds.specs.Arrivals.{is_later, latest_kind, latest_start, latest_between, earliest_kind, earliest_start, earliest_between};
ghost use Rattle.paths.specs.Networks.{Sound};
ghost use Rattle.paths.specs.Sweeps.{Swept};
ghost use Rattle.rings.specs.Found.{LatestFound};
ghost use Rattle.windows.specs.Blocks.{AllLeads};
ghost use Rattle.windows.specs.Rings.{first_of};
ghost use Rattle.windows.specs.Seen.{figure_at, network_of, course_of};
ghost use Rattle.windows.specs.Found.{EndsBy, Shows, MadeSweeps, EarlyFound};

use super::circuit::Circuit;
use super::column::Column;
use super::found::{LatestSweeps, ends_of};
use super::settle::settle;
use kinds::arrival::Arrival;
use kinds::early::Earliest;
use kinds::late::Latest;

// Sweeps of the latest kind, until no latch climbs.
pub(crate) fn find_latest(
    circuit: &Circuit<'_>,
    starts: &mut [Arrival],
    column: &mut Column<'_, Latest>,
) -> LatestSweeps
    requires few { length circuit.now.nodes.now ≤ 4096 }
    requires leads { AllLeads (network_of circuit.now) circuit.now.leads.now }
    requires starts_fit { length circuit.now.nodes.now ≤ length starts.old }
    requires column_fits { length circuit.now.nodes.now ≤ length column.old.figures.now }
    ensures found { (t : Table) (S : ℕ → Bool) → Stands t → Shows t S circuit.now → LatestFound (network t.nodes) (late_start t) (late_gain t S) (figure_at NoPath starts.new) (figure_at NoPath column.new.figures.now) }
    ensures swept { Sound (network_of circuit.now) → Swept latest_kind (network_of circuit.now) (course_of latest_start latest_between circuit.now) (figure_at NoPath starts.new) (figure_at NoPath column.new.figures.now) }
    ensures still { Sound (network_of circuit.now) → (v : ℕ) → (network_of circuit.now).is_latch v ≡ true → is_later (figure_at NoPath starts.new v) (figure_at NoPath column.new.figures.now v) ≡ false }
    ensures ends { EndsBy circuit.now.nodes.now starts.new result.ends }
    ensures sweeps { (t : Table) (S : ℕ → Bool) → Stands t → Shows t S circuit.now → MadeSweeps t S column.new.figures.now result.sweeps }
    ensures beyond { drop (length circuit.now.nodes.now) column.new.figures.now ≡ drop (length circuit.now.nodes.now) column.old.figures.now }
    ensures same_slice { column.new.figures.ghost_name ≡ column.old.figures.ghost_name }
    ensures same_length { length column.new.figures.now ≡ length column.old.figures.now }
    ensures same_starts { length starts.new ≡ length starts.old }
{
    let sweeps = settle::<Latest>(circuit, starts, column);
    LatestSweeps {
        ends: ends_of(circuit.nodes, starts),
        sweeps,
    }
}

// One sweep of the earliest kind.
pub(crate) fn find_earliest(
    circuit: &Circuit<'_>,
    starts: &mut [Arrival],
    column: &mut Column<'_, Earliest>,
)
    requires few { length circuit.now.nodes.now ≤ 4096 }
    requires leads { AllLeads (network_of circuit.now) circuit.now.leads.now }
    requires starts_fit { length circuit.now.nodes.now ≤ length starts.old }
    requires column_fits { length circuit.now.nodes.now ≤ length column.old.figures.now }
    ensures found { (t : Table) (S : ℕ → Bool) → Stands t → Shows t S circuit.now → EarlyFound t S column.new.figures.now }
    ensures swept { Sound (network_of circuit.now) → Swept earliest_kind (network_of circuit.now) (course_of earliest_start earliest_between circuit.now) (figure_at NoPath starts.new) (figure_at NoPath column.new.figures.now) }
    ensures opens { Sound (network_of circuit.now) → (v : ℕ) → (network_of circuit.now).is_latch v ≡ true → figure_at NoPath starts.new v ≡ first_of earliest_start circuit.now v }
    ensures beyond { drop (length circuit.now.nodes.now) column.new.figures.now ≡ drop (length circuit.now.nodes.now) column.old.figures.now }
    ensures same_slice { column.new.figures.ghost_name ≡ column.old.figures.ghost_name }
    ensures same_length { length column.new.figures.now ≡ length column.old.figures.now }
{
    settle::<Earliest>(circuit, starts, column);
}
