// The rule of three occurrences of the aggressor. It compares in 128 bits, so that no windows and shifts of 64 bits wrap.
ghost use Rattle.std.specs.Prelude.{◌≡◌, ◌+ℤ◌, ◌-ℤ◌, pos};
ghost use Rattle.rules.specs.Questions.{question};
ghost use Rattle.rules.specs.Rules.{come_close, sees_nearest, sees_following, sees_previous, three_occurrences};
ghost use Rattle.rules.specs.Laws.{three_occurrences_lawful};

use super::CouplingRule;
use super::wire::Wire;
use schedule::Schedule;

// Whether the windows come within the proximity of each other, the aggressor's moved by the shift.
fn come_close(schedule: &Schedule, victim: &Wire, aggressor: &Wire, shift: i64) -> bool
    ensures { result ≡ come_close (question schedule.now victim.now aggressor.now) shift }
{
    let shift = i128::from(shift);
    let begins = i128::from(victim.window.begins).max(i128::from(aggressor.window.begins) - shift);
    let ends = i128::from(victim.window.ends).min(i128::from(aggressor.window.ends) - shift);
    begins <= ends + i128::from(schedule.proximity())
}

// Whether the nearest occurrence of the aggressor is seen.
fn sees_nearest(schedule: &Schedule, victim: &Wire, aggressor: &Wire) -> bool
    ensures { result ≡ sees_nearest (question schedule.now victim.now aggressor.now) }
{
    let nearest = schedule.nearest_between(aggressor.phase, victim.phase);
    come_close(schedule, victim, aggressor, nearest)
}

// Whether the occurrence of the aggressor a period after the nearest one is seen.
fn sees_following(schedule: &Schedule, victim: &Wire, aggressor: &Wire) -> bool
    ensures { result ≡ sees_following (question schedule.now victim.now aggressor.now) }
{
    let begins = i128::from(aggressor.window.begins);
    let ends = i128::from(victim.window.ends);
    let nearest = i128::from(schedule.nearest_between(aggressor.phase, victim.phase));
    let forward = i128::from(schedule.forward_between(aggressor.phase, victim.phase));
    begins - nearest + i128::from(schedule.period()) <= ends + i128::from(schedule.proximity())
        && ends > begins - forward
}

// Whether the occurrence of the aggressor a period before the nearest one is seen.
fn sees_previous(schedule: &Schedule, victim: &Wire, aggressor: &Wire) -> bool
    ensures { result ≡ sees_previous (question schedule.now victim.now aggressor.now) }
{
    let begins = i128::from(victim.window.begins);
    let ends = i128::from(aggressor.window.ends);
    let nearest = i128::from(schedule.nearest_between(aggressor.phase, victim.phase));
    let forward = i128::from(schedule.forward_between(aggressor.phase, victim.phase));
    begins - i128::from(schedule.proximity()) <= ends - nearest - i128::from(schedule.period())
        && begins <= ends - forward
}

// A coupling acts if the victim may switch close to one of three occurrences of the aggressor: the nearest one, and those
// a period after and before it.
#[derive(Clone, Copy, PartialEq, Eq, Debug)]
pub struct ThreeOccurrences;

impl CouplingRule for ThreeOccurrences {
    ghost meaning = { λ rule. three_occurrences };

    ghost lawful = { λ rule. three_occurrences_lawful };

    fn sees(&self, schedule: &Schedule, victim: &Wire, aggressor: &Wire) -> bool {
        if victim.phase == aggressor.phase {
            return come_close(schedule, victim, aggressor, 0);
        }
        sees_nearest(schedule, victim, aggressor)
            || sees_following(schedule, victim, aggressor)
            || sees_previous(schedule, victim, aggressor)
    }
}
