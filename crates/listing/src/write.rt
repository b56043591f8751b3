// The text of a table.
ghost use Rattle.std.specs.Prelude.{◌≤◌, IfOk};
ghost use Rattle.design.specs.Table.{lent_in};
ghost use Rattle.states.specs.Views.{loan_of, open_table};
ghost use Rattle.loading.specs.Rebuilding.{AllRebuild};
ghost use Rattle.listing.specs.Listed.{longest_text, WrittenTo};

use super::lines::Listing;
use design::couplings::Coupling;
use design::nodes::Node;
use refusals::Refusal;
use schedule::Schedule;
use states::OpenBook;
use states::stages::Stage;

// Writes the schedule, the nodes, the feeds and the couplings of a draft or a sealed table as frames into the first places
// of `out`, and answers how many bytes that is. They are only read, so they are lent apart: a `Tables` would borrow them
// for writing.
pub fn write<S: Stage>(
    book: &OpenBook<S>,
    schedule: &Schedule,
    nodes: &[Node],
    couplings: &[Coupling],
    out: &mut [u8],
) -> Result<usize, Refusal>
    ensures text { WrittenTo (lent_in (loan_of schedule.now nodes.now couplings.now)) (open_table S.state book.now (loan_of schedule.now nodes.now couplings.now)) out.old out.new result }
    ensures few { IfOk result (λ n. n ≤ longest_text) }
    ensures rebuilds { AllRebuild }
{
    let counts = book.counts();
    let nodes = nodes.get(..counts.nodes).ok_or(Refusal::Short)?;
    let couplings = couplings.get(..counts.couplings).ok_or(Refusal::Short)?;
    let mut no_bytes = [];
    let mut counted = Listing::new(&mut no_bytes);
    counted.put_table(schedule, nodes, couplings);
    if out.len() < counted.end {
        return Err(Refusal::Short);
    }
    let mut listing = Listing::new(out);
    listing.put_table(schedule, nodes, couplings);
    Ok(listing.end)
}
