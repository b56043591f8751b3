// From a sealed table back to a draft.
ghost use Rattle.design.specs.Calls.{reopen};
ghost use Rattle.states.specs.Views.{loan_of, draft_table, sealed_table};
ghost use Rattle.states.specs.Typed.{Changed};

use super::{Draft, Refused, Sealed};
use design::couplings::Coupling;
use design::nodes::Node;
use refusals::Refusal;
use schedule::Schedule;
use std::marker::PhantomData;

impl Sealed {
    // Turns a sealed table back into a draft.
    pub fn reopen(
        self,
        schedule: &Schedule,
        nodes: &[Node],
        couplings: &[Coupling],
    ) -> Result<Draft, Refused<Sealed>>
        ensures { Changed sealed_table draft_table self (loan_of schedule.now nodes.now couplings.now) reopen result }
    {
        if self.counts.is_short(nodes, couplings) {
            return Err(Refused {
                book: self,
                refusal: Refusal::Short,
            });
        }
        Ok(Draft {
            counts: self.counts,
            stage: PhantomData,
        })
    }
}
