// The rule that sees everything.
ghost use Rattle.rules.specs.Rules.{always};
ghost use Rattle.rules.specs.Laws.{always_lawful};

use super::CouplingRule;
use super::wire::Wire;
use schedule::Schedule;

// Every coupling acts, whatever the windows.
#[derive(Clone, Copy, PartialEq, Eq, Debug)]
pub struct Always;

impl CouplingRule for Always {
    ghost meaning = { λ rule. always };

    ghost lawful = { λ rule. always_lawful };

    fn sees(&self, _schedule: &Schedule, _victim: &Wire, _aggressor: &Wire) -> bool {
        true
    }
}
