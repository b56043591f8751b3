// The questions that the tests ask of figures, and the tests that new rows have in common.
ghost use Rattle.std.specs.Prelude.{◌≡◌};
ghost use Rattle.design.specs.Rows.{any_above};
ghost use Rattle.design.specs.Tests.{first_that};
ghost use Rattle.states.specs.Passing.{row_tests, Passed};

use refusals::Refusal;
use schedule::Schedule;

// The latest time of an input.
pub(crate) const GREATEST_TIME: u32 = 16_777_215;

// The greatest delay, setup, hold or amount of a coupling.
pub(crate) const GREATEST_DELAY: u32 = 1_048_575;

pub(crate) fn any_above(limit: u32, figures: &[u32]) -> bool
    ensures { result ≡ any_above limit figures.now }
{
    figures.iter().any(|figure| *figure > limit)
}

// The tests of the phase, the span and the figures of a new row.
pub(crate) fn check_row(
    schedule: &Schedule,
    phase: u8,
    from: u32,
    to: u32,
    limit: u32,
    figures: &[u32],
) -> Result<(), Refusal>
    ensures { Passed (first_that (row_tests schedule.now phase from to limit figures.now)) result }
{
    if !(1..=schedule.phases()).contains(&phase) {
        return Err(Refusal::Phase);
    }
    if from > to {
        return Err(Refusal::Span);
    }
    if any_above(limit, figures) {
        return Err(Refusal::Figure);
    }
    Ok(())
}
