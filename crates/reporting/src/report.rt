// The lines of a judgement, written one after another.
ghost use Rattle.std.specs.Prelude.{◌≡◌, ◌-◌, ◌^◌, min, flat_map};
ghost use Rattle.reporting.specs.Report.{windows_with, window_line, flag_line, report_length, Reported, WrittenAt};

use super::lines::{flag_bytes, verdict_bytes, window_bytes};
use judging::verdict::{Judgement, Verdict};
use refusals::Refusal;
use text::spelling::spell_line;
use timing::windows::Window;
use windows::flags::Flag;

// How many characters the lines of a verdict, of a window and of a flag have, with their line feeds.
pub const VERDICT_LINE: usize = 31;

pub const WINDOW_LINE: usize = 33;

pub const FLAG_LINE: usize = 3;

// How many characters a report has that shows so many windows and flags, up to the greatest count.
pub fn length_of(windows: usize, flags: usize) -> usize
    ensures { result ≡ min (report_length windows flags) (2 ^ 64 - 1) }
{
    WINDOW_LINE
        .saturating_mul(windows)
        .saturating_add(FLAG_LINE.saturating_mul(flags))
        .saturating_add(VERDICT_LINE)
}

// The windows that are shown with a verdict: on gain there are none.
fn windows_with<'a>(verdict: Verdict, windows: &'a [Window]) -> &'a [Window]
    ensures { result.now ≡ windows_with verdict windows.now }
{
    match verdict {
        Verdict::Gain { .. } => &[],
        _ => windows,
    }
}

// Writes the lines of windows into `out` from a place on, and answers where they end.
fn put_windows(windows: &[Window], out: &mut [u8], place: usize) -> Result<usize, Refusal>
    ensures { WrittenAt (flat_map window_line windows.now) place out.old out.new result }
{
    let mut end = place;
    for window in windows {
        end = spell_line(&window_bytes(window), out, end)?;
    }
    Ok(end)
}

// Writes the lines of flags into `out` from a place on, and answers where they end.
fn put_flags(flags: &[Flag], out: &mut [u8], place: usize) -> Result<usize, Refusal>
    ensures { WrittenAt (flat_map flag_line flags.now) place out.old out.new result }
{
    let mut end = place;
    for flag in flags {
        end = spell_line(&flag_bytes(*flag), out, end)?;
    }
    Ok(end)
}

// Writes the lines of a judgement into the first places of `out`, and answers how many bytes that is: the verdict, the
// windows unless it is gain, and the flags. Nothing is written where `out` is too short.
pub fn report(
    judgement: &Judgement,
    windows: &[Window],
    flags: &[Flag],
    out: &mut [u8],
) -> Result<usize, Refusal>
    ensures { Reported judgement.now windows.now flags.now out.old out.new result }
{
    let shown = windows_with(judgement.verdict, windows);
    if out.len() < length_of(shown.len(), flags.len()) {
        return Err(Refusal::Short);
    }
    let end = spell_line(&verdict_bytes(judgement), out, 0)?;
    let end = put_windows(shown, out, end)?;
    put_flags(flags, out, end)
}
