// The rule that sees nothing.
ghost use Rattle.rules.specs.Rules.{never};
ghost use Rattle.rules.specs.Laws.{never_lawful};

use super::CouplingRule;
use super::wire::Wire;
use schedule::Schedule;

// No coupling acts.
#[derive(Clone, Copy, PartialEq, Eq, Debug)]
pub struct Never;

impl CouplingRule for Never {
    ghost meaning = { λ rule. never };

    ghost lawful = { λ rule. never_lawful };

    fn sees(&self, _schedule: &Schedule, _victim: &Wire, _aggressor: &Wire) -> bool {
        false
    }
}
