// Another schedule for an open book.
ghost use Rattle.schedule.specs.Made.{drawn};
ghost use Rattle.design.specs.Calls.{retime};
ghost use Rattle.design.specs.Effects.{Answered};
ghost use Rattle.states.specs.Views.{loan_of, open_table};
ghost use Rattle.states.specs.Typed.{done_answer};

use super::OpenBook;
use super::stages::Stage;
use design::couplings::Coupling;
use design::nodes::Node;
use refusals::Refusal;
use schedule::Schedule;
use schedule::figures::Figures;

impl<S: Stage> OpenBook<S> {
    pub fn retime(
        &self,
        schedule: &mut Schedule,
        nodes: &[Node],
        couplings: &[Coupling],
        figures: &Figures,
    ) -> Result<(), Refusal>
        ensures { Answered (open_table S.state) self.now (loan_of schedule.old nodes.now couplings.now) (retime (drawn figures.now)) self.now (loan_of schedule.new nodes.now couplings.now) (done_answer result) }
    {
        let mut fresh = *schedule;
        fresh.retime(figures)?;
        if self.counts.is_short(nodes, couplings) {
            return Err(Refusal::Short);
        }
        *schedule = fresh;
        Ok(())
    }
}
