// Windows written from what sweeps found.
ghost use Rattle.std.specs.Prelude.{◌≡◌, ◌≤◌, length};
ghost use Rattle.kinds.specs.declared.arrival.Arrival.TheVariants.{NoPath};
ghost use Rattle.windows.specs.Seen.{figure_at, network_of};
ghost use Rattle.windows.specs.Written.{tick_of, begins_with, EndsWritten, BeginsWritten};

use super::circuit::Circuit;
use super::column::Column;
use super::sweep::leaving;
use kinds::arrival::Arrival;
use kinds::early::Earliest;
use kinds::late::Latest;
use timing::windows::Window;

// The tick at which something arrives; 0 where nothing does, as at a row that somebody else wrote.
pub(crate) fn tick(arrival: Arrival) -> i64
    ensures { result ≡ tick_of arrival }
{
    match arrival {
        Arrival::At(tick) => tick,
        _ => 0,
    }
}

// A window that ends at another moment.
fn with_ends(window: Window, ends: i64) -> Window
    ensures { (result.begins ≡ window.begins) × (result.ends ≡ ends) }
{
    Window { ends, ..window }
}

// A window ends when the node is left at the latest: a latch with what it starts from, any other node with what came to it.
pub(crate) fn write_ends(
    circuit: &Circuit<'_>,
    starts: &[Arrival],
    column: &Column<'_, Latest>,
    windows: &mut [Window],
)
    requires { length circuit.now.nodes.now ≤ length windows.old }
    ensures { EndsWritten (network_of circuit.now) (figure_at NoPath starts.now) (figure_at NoPath column.now.figures.now) windows.old windows.new }
{
    for v in 0..circuit.nodes.len() {
        let ends = tick(leaving::<Latest>(circuit, starts, column.figures, v));
        windows[v] = with_ends(windows[v], ends);
    }
}

// When the window of a node begins: at the opening edge of a latch, and elsewhere with the earliest that came to the node.
fn begins(circuit: &Circuit<'_>, column: &Column<'_, Earliest>, v: usize) -> i64
    ensures { result ≡ begins_with circuit.now (figure_at NoPath column.now.figures.now) v }
{
    if circuit.row(v).is_latch() {
        circuit.start(v).earliest
    } else {
        tick(column.at(v))
    }
}

// A window that begins at another moment.
fn with_begins(window: Window, begins: i64) -> Window
    ensures { (result.begins ≡ begins) × (result.ends ≡ window.ends) }
{
    Window { begins, ..window }
}

// Writes when windows begin, and leaves when they end.
pub(crate) fn write_begins(
    circuit: &Circuit<'_>,
    column: &Column<'_, Earliest>,
    windows: &mut [Window],
)
    requires { length circuit.now.nodes.now ≤ length windows.old }
    ensures { BeginsWritten circuit.now (figure_at NoPath column.now.figures.now) windows.old windows.new }
{
    for v in 0..circuit.nodes.len() {
        windows[v] = with_begins(windows[v], begins(circuit, column, v));
    }
}
