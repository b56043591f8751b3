// Coupling rules: whether a coupling acts, by the windows of its victim and its aggressor.
#![tactic(auto)]

ghost use Rattle.std.specs.Prelude.{◌≡◌, Bool};
ghost use Rattle.rules.specs.Questions.{Question, question, Lawful};

pub mod always;
pub mod named;
pub mod never;
pub mod three_occurrences;
pub mod wire;

use schedule::Schedule;
use wire::Wire;

// A coupling rule. It is asked of a victim and an aggressor with their windows, and answers whether the coupling acts.
// Equal questions get equal answers, asking alters nothing, and it refuses no question: its meaning is the set of the
// questions that it sees.
pub trait CouplingRule {
    // the questions that a rule sees
    ghost meaning: { Self → Question → Bool };

    // Whether the rule sees the pair, and the coupling acts.
    fn sees(&self, schedule: &Schedule, victim: &Wire, aggressor: &Wire) -> bool
        ensures { result ≡ meaning self.now (question schedule.now victim.now aggressor.now) };

    // a pair that is seen stays seen when windows widen
    ghost lawful: { (rule : Self) → Lawful (meaning rule) };
}
