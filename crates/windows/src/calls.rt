// The calls of this crate: windows, and what arrives at each node.
ghost use Rattle.states.specs.Views.{loan_of, open_table};
ghost use Rattle.windows.specs.Answers.{LatestAnswered, EarliestAnswered, WindowsAnswered};

use super::blocks::Leads;
use super::breaches::{early_latch, late_latch};
use super::checked::Checked;
use super::column::Column;
use super::effective::Effective;
use super::find::{find_earliest, find_latest};
use super::flags::Flag;
use super::found::{Ends, LatestSweeps};
use super::rows::rows_of;
use super::write::{write_begins, write_ends};
use design::couplings::Coupling;
use design::nodes::Node;
use kinds::arrival::Arrival;
use refusals::Refusal;
use schedule::Schedule;
use states::OpenBook;
use states::counts::MOST_NODES;
use states::stages::Stage;
use timing::windows::Window;

// Fills the column with the latest arrival at each node while the couplings act whose flags are set: the greatest late
// figure of the paths that arrive there. Answers whether every window has an end, and how many sweeps were made.
pub fn latest_arrivals<S: Stage>(
    book: &OpenBook<S>,
    schedule: &Schedule,
    nodes: &[Node],
    couplings: &[Coupling],
    flags: &[Flag],
    column: &mut [Arrival],
) -> Result<LatestSweeps, Refusal>
    ensures { LatestAnswered (open_table S.state book.now) (loan_of schedule.now nodes.now couplings.now) flags.now column.old column.new result }
{
    let rows = rows_of(book, schedule, nodes, couplings, flags.len(), column.len())?;
    let delays = Effective::<MOST_NODES>::under(rows.nodes, rows.couplings, flags);
    let leads = Leads::of(rows.nodes);
    let circuit = rows.circuit(&delays, &leads);
    let mut starts = [Arrival::NoPath; MOST_NODES];
    let mut column = Column { figures: column };
    Ok(find_latest(&circuit, &mut starts, &mut column))
}

// Fills the column with the earliest arrival at each node while the couplings act whose flags are set: the least early
// figure of the short paths that arrive there.
pub fn earliest_arrivals<S: Stage>(
    book: &OpenBook<S>,
    schedule: &Schedule,
    nodes: &[Node],
    couplings: &[Coupling],
    flags: &[Flag],
    column: &mut [Arrival],
) -> Result<(), Refusal>
    ensures { EarliestAnswered (open_table S.state book.now) (loan_of schedule.now nodes.now couplings.now) flags.now column.old column.new result }
{
    let rows = rows_of(book, schedule, nodes, couplings, flags.len(), column.len())?;
    let delays = Effective::<MOST_NODES>::under(rows.nodes, rows.couplings, flags);
    let leads = Leads::of(rows.nodes);
    let circuit = rows.circuit(&delays, &leads);
    let mut starts = [Arrival::NoPath; MOST_NODES];
    let mut column = Column { figures: column };
    find_earliest(&circuit, &mut starts, &mut column);
    Ok(())
}

// Writes the window of each node into `windows` while the couplings act whose flags are set, and answers which latches are
// late or early. Where a window has no end, the lowest latch with such a window is the answer, and `windows` stays as it
// is. The column is room to work in.
pub fn windows<S: Stage>(
    book: &OpenBook<S>,
    schedule: &Schedule,
    nodes: &[Node],
    couplings: &[Coupling],
    flags: &[Flag],
    windows: &mut [Window],
    column: &mut [Arrival],
) -> Result<Checked, Refusal>
    ensures { WindowsAnswered (open_table S.state book.now) (loan_of schedule.now nodes.now couplings.now) flags.now windows.old windows.new column.old column.new result }
{
    let places = windows.len().min(column.len());
    let rows = rows_of(book, schedule, nodes, couplings, flags.len(), places)?;
    let delays = Effective::<MOST_NODES>::under(rows.nodes, rows.couplings, flags);
    let leads = Leads::of(rows.nodes);
    let circuit = rows.circuit(&delays, &leads);
    let mut starts = [Arrival::NoPath; MOST_NODES];
    let mut latest = Column {
        figures: &mut *column,
    };
    let found = find_latest(&circuit, &mut starts, &mut latest);
    if let Ends::NoneAt { latch } = found.ends {
        return Ok(Checked::NoEnd { latch });
    }
    let late = late_latch(&circuit, &latest);
    write_ends(&circuit, &starts, &latest, windows);
    let mut earliest = Column { figures: column };
    find_earliest(&circuit, &mut starts, &mut earliest);
    let early = early_latch(&circuit, &earliest);
    write_begins(&circuit, &earliest, windows);
    Ok(Checked::Ended { late, early })
}
