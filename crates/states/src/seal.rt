// From a draft to a sealed table.
ghost use Rattle.design.specs.Calls.{seal};
ghost use Rattle.states.specs.Views.{loan_of, draft_table, sealed_table};
ghost use Rattle.states.specs.Typed.{Changed};

use super::scan::{any_unfed, granted};
use super::{Draft, Refused, Sealed};
use design::couplings::Coupling;
use design::nodes::Node;
use refusals::Refusal;
use schedule::Schedule;
use std::marker::PhantomData;

impl Draft {
    // Seals a draft whose latches are all fed.
    pub fn seal(
        self,
        schedule: &Schedule,
        nodes: &[Node],
        couplings: &[Coupling],
    ) -> Result<Sealed, Refused<Draft>>
        ensures { Changed draft_table sealed_table self (loan_of schedule.now nodes.now couplings.now) seal result }
    {
        let counts = self.counts;
        if any_unfed(granted(nodes, counts.nodes)) {
            return Err(Refused {
                book: self,
                refusal: Refusal::Unfed,
            });
        }
        if counts.is_short(nodes, couplings) {
            return Err(Refused {
                book: self,
                refusal: Refusal::Short,
            });
        }
        Ok(Sealed {
            counts,
            stage: PhantomData,
        })
    }
}
