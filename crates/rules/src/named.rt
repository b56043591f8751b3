// The rule that a frame names, so that calls of one list can bring different rules.
ghost use Rattle.rules.specs.Named.{named};
ghost use Rattle.rules.specs.Laws.{named_lawful};

use super::CouplingRule;
use super::always::Always;
use super::never::Never;
use super::three_occurrences::ThreeOccurrences;
use super::wire::Wire;
use frames::rules::Rule;
use schedule::Schedule;

impl CouplingRule for Rule {
    ghost meaning = { named };

    ghost lawful = { named_lawful };

    fn sees(&self, schedule: &Schedule, victim: &Wire, aggressor: &Wire) -> bool {
        match self {
            Rule::Never => Never.sees(schedule, victim, aggressor),
            Rule::ThreeOccurrences => ThreeOccurrences.sees(schedule, victim, aggressor),
            Rule::Always => Always.sees(schedule, victim, aggressor),
        }
    }
}
