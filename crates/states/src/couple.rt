// Couplings between the nodes of a draft.
ghost use Rattle.design.specs.Calls.{couple};
ghost use Rattle.design.specs.Effects.{Answered};
ghost use Rattle.states.specs.Views.{loan_of, draft_table};
ghost use Rattle.states.specs.Typed.{coupling_answer};

use super::Draft;
use super::figures::{GREATEST_DELAY, any_above};
use super::scan::{Role, check_pair, exceeds, granted};
use design::couplings::Coupling;
use design::nodes::Node;
use refusals::Refusal;
use schedule::Schedule;

impl Draft {
    // Adds a coupling of a gate or latch, the victim, with any other node, and answers its number.
    pub fn couple(
        &mut self,
        schedule: &Schedule,
        nodes: &[Node],
        couplings: &mut [Coupling],
        coupling: Coupling,
    ) -> Result<u16, Refusal>
        ensures { Answered draft_table self.old (loan_of schedule.now nodes.now couplings.old) (couple coupling.victim coupling.aggressor coupling.assisting coupling.opposing) self.new (loan_of schedule.now nodes.now couplings.new) (coupling_answer result) }
    {
        let Coupling {
            victim,
            aggressor,
            assisting,
            opposing,
        } = coupling;
        let counts = self.counts;
        let more = counts.with_coupling()?;
        if any_above(GREATEST_DELAY, &[assisting, opposing]) {
            return Err(Refusal::Figure);
        }
        if counts.is_other(Role::Victim, nodes, victim)
            || counts.is_other(Role::Any, nodes, aggressor)
        {
            return Err(Refusal::Node);
        }
        let k = counts.couplings;
        let sum = check_pair(granted(couplings, k), victim, aggressor)? + u64::from(assisting);
        if exceeds(granted(nodes, counts.nodes), victim, sum) {
            return Err(Refusal::Assist);
        }
        if more.is_short(nodes, couplings) {
            return Err(Refusal::Short);
        }
        couplings[k] = coupling;
        self.counts = more;
        Ok(k as u16)
    }
}
