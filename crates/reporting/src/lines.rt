// The bytes of each line of a report.
ghost use Rattle.std.specs.Prelude.{◌≡◌};
ghost use Rattle.reporting.specs.Report.{signed_bytes, verdict_bytes, window_bytes, flag_bytes};

use judging::verdict::Judgement;
use timing::windows::Window;
use windows::flags::Flag;

// What stands in place of a latch where a verdict names none.
const NO_LATCH: u16 = 0xFFFF;

// A signed number in 8 bytes, the highest first.
fn signed_bytes(number: i64) -> [u8; 8]
    ensures { result ≡ signed_bytes number }
{
    number.to_be_bytes()
}

// The number of the verdict, its latch, its excess, the rounds, and the flags set.
pub fn verdict_bytes(judgement: &Judgement) -> [u8; 15]
    ensures { result ≡ verdict_bytes judgement.now }
{
    let verdict = judgement.verdict;
    let [l0, l1] = verdict.latch().unwrap_or(NO_LATCH).to_be_bytes();
    let [e0, e1, e2, e3, e4, e5, e6, e7] = signed_bytes(verdict.excess());
    let [r0, r1] = judgement.rounds.to_be_bytes();
    let [f0, f1] = judgement.flags.to_be_bytes();
    [
        verdict.number(),
        l0,
        l1,
        e0,
        e1,
        e2,
        e3,
        e4,
        e5,
        e6,
        e7,
        r0,
        r1,
        f0,
        f1,
    ]
}

// When the window begins, and when it ends.
pub(crate) fn window_bytes(window: &Window) -> [u8; 16]
    ensures { result ≡ window_bytes window.now }
{
    let [b0, b1, b2, b3, b4, b5, b6, b7] = signed_bytes(window.begins);
    let [e0, e1, e2, e3, e4, e5, e6, e7] = signed_bytes(window.ends);
    [
        b0, b1, b2, b3, b4, b5, b6, b7, e0, e1, e2, e3, e4, e5, e6, e7,
    ]
}

// 1 where the flag is set, and else 0.
pub(crate) fn flag_bytes(flag: Flag) -> [u8; 1]
    ensures { result ≡ flag_bytes flag }
{
    match flag {
        Flag::Clear => [0],
        Flag::Set => [1],
    }
}
