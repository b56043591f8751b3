// The verdict that the windows of the last round give.
ghost use Rattle.std.specs.Prelude.{◌≡◌};
ghost use Rattle.verifying.specs.Found.{verdict_of};

use judging::verdict::Verdict;
use windows::checked::Checked;

// A window without an end is gain; else the lowest late latch is told, and else the lowest early one.
pub(crate) fn verdict_of(checked: Checked) -> Verdict
    ensures { result ≡ verdict_of checked }
{
    match checked {
        Checked::NoEnd { latch } => Verdict::Gain { latch },
        Checked::Ended {
            late: Some(breach),
            ..
        } => Verdict::Late {
            latch: breach.latch,
            excess: breach.excess,
        },
        Checked::Ended {
            early: Some(breach),
            ..
        } => Verdict::Early {
            latch: breach.latch,
            excess: breach.excess,
        },
        Checked::Ended { .. } => Verdict::Pass,
    }
}
