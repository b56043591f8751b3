// The library for callers in C: each function works on buffers that the caller lends, and allocates nothing. A function
// that may refuse answers 0 where it does not, and then how many bytes it wrote stands in `written`; or else the number of
// the refusal, with `written` as it was.
#![tactic(auto)]

ghost use Rattle.std.specs.Prelude.{◌≡◌, ℕ, ◌-◌, ◌^◌, min, Result};
ghost use Rattle.refusals.specs.declared.Refusal.{Refusal};
ghost use Rattle.printing.specs.Room.{room_for};
ghost use Rattle.printing.specs.Outputs.{Printed, PrintedOver};
ghost use Rattle.printing.specs.Judging.{JudgedText, RebuiltText};
ghost use Rattle.exports.specs.Status.{Told};

use printing::judge::judge;
use printing::output::{output, output_overwritten};
use printing::rebuild::rebuild;
use printing::room::room_for;
use refusals::Refusal;

// Tells a result: its status is the answer, and how many bytes were written goes to `written`.
fn tell(outcome: Result<usize, Refusal>, written: &mut usize) -> u8
    ensures { Told outcome written.old written.new result }
{
    match outcome {
        Ok(count) => {
            *written = count;
            0
        }
        Err(refusal) => refusal.into(),
    }
}

// The most bytes that the output of a text has; of more than can be counted, the greatest count.
#[unsafe(no_mangle)]
pub extern "C" fn ravokimpy_room(text: &[u8]) -> usize
    ensures { result ≡ min (room_for text.now) (2 ^ 64 - 1) }
{
    room_for(text)
}

// What is printed for the lines of a text, put to a new book.
#[unsafe(no_mangle)]
pub extern "C" fn ravokimpy_output(text: &[u8], out: &mut [u8], written: &mut usize) -> u8
    ensures { (r : Result ℕ Refusal) × Printed text.now out.old out.new r × Told r written.old written.new result }
{
    tell(output(text, out), written)
}

// The same for a text that is cut in two, with rows overwritten between the parts.
#[unsafe(no_mangle)]
pub extern "C" fn ravokimpy_output_overwritten(
    text: &[u8],
    place: usize,
    records: &[u8],
    out: &mut [u8],
    written: &mut usize,
) -> u8
    ensures { (r : Result ℕ Refusal) × PrintedOver text.now place records.now out.old out.new r × Told r written.old written.new result }
{
    tell(output_overwritten(text, place, records, out), written)
}

// The verdict of the table that a text leaves, judged under the rule of a byte so many times over.
#[unsafe(no_mangle)]
pub extern "C" fn ravokimpy_judge(
    text: &[u8],
    rule: u8,
    times: u32,
    verdict: &mut [u8],
    written: &mut usize,
) -> u8
    ensures { (r : Result ℕ Refusal) × JudgedText text.now rule verdict.old verdict.new r × Told r written.old written.new result }
{
    tell(judge(text, rule, times, verdict), written)
}

// The text of the table that a text leaves.
#[unsafe(no_mangle)]
pub extern "C" fn ravokimpy_rebuild(text: &[u8], out: &mut [u8], written: &mut usize) -> u8
    ensures { (r : Result ℕ Refusal) × RebuiltText text.now out.old out.new r × Told r written.old written.new result }
{
    tell(rebuild(text, out), written)
}
