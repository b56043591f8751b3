// Opening a book.
ghost use Rattle.schedule.specs.Made.{drawn};
ghost use Rattle.states.specs.Views.{loan_of};
ghost use Rattle.states.specs.Typed.{Opened};

use super::Draft;
use super::counts::{Counts, MOST_COUPLINGS, MOST_NODES};
use design::couplings::Coupling;
use design::nodes::Node;
use refusals::Refusal;
use schedule::Schedule;
use schedule::figures::Figures;
use std::marker::PhantomData;

impl Draft {
    // An empty draft under the schedule of the figures, which the schedule record then holds.
    pub fn open(
        schedule: &mut Schedule,
        nodes: &[Node],
        couplings: &[Coupling],
        figures: &Figures,
    ) -> Result<Draft, Refusal>
        ensures { Opened (loan_of schedule.old nodes.now couplings.now) (drawn figures.now) (loan_of schedule.new nodes.now couplings.now) result }
    {
        *schedule = Schedule::new(figures)?;
        Ok(Draft {
            counts: Counts {
                nodes: 0,
                couplings: 0,
                node_room: nodes.len().min(MOST_NODES),
                coupling_room: couplings.len().min(MOST_COUPLINGS),
            },
            stage: PhantomData,
        })
    }
}
