// Latches that are late or early, by what sweeps found.
ghost use Rattle.std.specs.Prelude.{◌≡◌, ◌≤◌, length};
ghost use Rattle.kinds.specs.declared.arrival.Arrival.TheVariants.{NoPath};
ghost use Rattle.windows.specs.Seen.{figure_at};
ghost use Rattle.windows.specs.Edges.{late_excess, early_excess};
ghost use Rattle.windows.specs.Breaches.{late_at, late_excess_at, early_at, early_excess_at, LowestBreach};

use super::checked::Breach;
use super::circuit::Circuit;
use super::column::Column;
use super::edges::{early_bound, is_early, is_late, late_bound};
use design::nodes::Node;
use kinds::arrival::Arrival;
use kinds::early::Earliest;
use kinds::late::Latest;
use schedule::Schedule;

// How far the latest arrival at a latch is after its late bound. Where that would leave 64 bits it stays at their end.
fn late_excess(schedule: &Schedule, node: &Node, latest: Arrival) -> i64
    ensures { result ≡ late_excess schedule.now node.now latest }
{
    match (node, latest) {
        (Node::Latch { setup, .. }, Arrival::At(figure)) => {
            figure.saturating_sub(late_bound(schedule, *setup))
        }
        _ => 0,
    }
}

// How far the earliest arrival at a latch is before its early bound, likewise.
fn early_excess(node: &Node, earliest: Arrival) -> i64
    ensures { result ≡ early_excess node.now earliest }
{
    match (node, earliest) {
        (Node::Latch { hold, .. }, Arrival::At(figure)) => {
            early_bound(*hold).saturating_sub(figure)
        }
        _ => 0,
    }
}

// The lowest latch that is late, and by how much, of the latest arrival at each node.
pub(crate) fn late_latch(circuit: &Circuit<'_>, column: &Column<'_, Latest>) -> Option<Breach>
    requires few { length circuit.now.nodes.now ≤ 4096 }
    ensures { LowestBreach (length circuit.now.nodes.now) (late_at circuit.now (figure_at NoPath column.now.figures.now)) (late_excess_at circuit.now (figure_at NoPath column.now.figures.now)) result }
{
    for v in 0..circuit.nodes.len() {
        if is_late(circuit.schedule, circuit.row(v), column.at(v)) {
            let excess = late_excess(circuit.schedule, circuit.row(v), column.at(v));
            return Some(Breach {
                latch: v as u16,
                excess,
            });
        }
    }
    None
}

// The lowest latch that is early, and by how much, of the earliest arrival at each node.
pub(crate) fn early_latch(circuit: &Circuit<'_>, column: &Column<'_, Earliest>) -> Option<Breach>
    requires few { length circuit.now.nodes.now ≤ 4096 }
    ensures { LowestBreach (length circuit.now.nodes.now) (early_at circuit.now (figure_at NoPath column.now.figures.now)) (early_excess_at circuit.now (figure_at NoPath column.now.figures.now)) result }
{
    for v in 0..circuit.nodes.len() {
        if is_early(circuit.row(v), column.at(v)) {
            let excess = early_excess(circuit.row(v), column.at(v));
            return Some(Breach {
                latch: v as u16,
                excess,
            });
        }
    }
    None
}
