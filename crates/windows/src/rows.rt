// The rows that a call works on.
ghost use Rattle.states.specs.Views.{loan_of, open_table};
ghost use Rattle.windows.specs.Lending.{RowsOf, IsCircuit};

use super::blocks::Leads;
use super::circuit::Circuit;
use super::effective::Effective;
use design::couplings::Coupling;
use design::nodes::Node;
use refusals::Refusal;
use schedule::Schedule;
use states::OpenBook;
use states::stages::Stage;

// The granted rows of the lent tables, and their schedule.
#[derive(Clone, Copy)]
pub struct Rows<'a> {
    pub schedule: &'a Schedule,
    pub nodes: &'a [Node],
    pub couplings: &'a [Coupling],
}

impl<'a> Rows<'a> {
    // The circuit of the rows with these delays and leads.
    pub(crate) fn circuit<'b, const N: usize>(
        &self,
        delays: &'b Effective<N>,
        leads: &'b Leads,
    ) -> Circuit<'b>
    where
        'a: 'b,
        ensures { IsCircuit self.now delays.now.places leads.now result }
    {
        Circuit {
            schedule: self.schedule,
            nodes: self.nodes,
            delays: delays.list(),
            leads,
        }
    }
}

// The rows of a book; refused where a lent table has fewer than are granted, or where there are fewer flags than
// couplings or fewer places than nodes.
#[tactic(auto, using(states::proofs::Seen::table, states::proofs::Seen::first_taken))]
pub fn rows_of<'a, S: Stage>(
    book: &OpenBook<S>,
    schedule: &'a Schedule,
    nodes: &'a [Node],
    couplings: &'a [Coupling],
    flags: usize,
    places: usize,
) -> Result<Rows<'a>, Refusal>
    ensures { RowsOf (open_table S.state book.now) (loan_of schedule.now nodes.now couplings.now) flags places result }
{
    let counts = book.counts();
    if flags < counts.couplings || places < counts.nodes {
        return Err(Refusal::Short);
    }
    Ok(Rows {
        schedule,
        nodes: nodes.get(..counts.nodes).ok_or(Refusal::Short)?,
        couplings: couplings.get(..counts.couplings).ok_or(Refusal::Short)?,
    })
}
