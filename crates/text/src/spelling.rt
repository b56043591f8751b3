// Bytes written as a line of digits.
ghost use Rattle.std.specs.Prelude.{◌≡◌, ◌*◌, length};
ghost use Rattle.text.specs.Digits.{bytes_of, spelled};
ghost use Rattle.text.specs.Spelling.{SpelledAt};

use super::digits::digits_of;
use refusals::Refusal;

// Writes the digits of bytes into a buffer that is as long as they are.
fn spell(bytes: &[u8], out: &mut [u8])
    requires { length out.old ≡ 2 * length bytes.now }
    ensures { out.new ≡ spelled bytes.now }
{
    for (k, byte) in bytes.iter().enumerate() {
        // By its place, since of chunks that are lent only their number would be known afterwards.
        out[2 * k..2 * k + 2].copy_from_slice(&digits_of(*byte));
    }
}

// Writes bytes as a line of digits, with its line feed, into `out` from a place on, and answers where it ends. Buffer and
// place are the caller's, who goes on from there; a place past the buffer is refused too.
pub fn spell_line(bytes: &[u8], out: &mut [u8], place: usize) -> Result<usize, Refusal>
    ensures line { SpelledAt bytes.now place out.old out.new result }
    ensures back { bytes_of (spelled bytes.now) ≡ bytes.now }
{
    let width = 2 * bytes.len();
    if out.len().saturating_sub(place) <= width {
        return Err(Refusal::Short);
    }
    let end = place + width;
    spell(bytes, &mut out[place..end]);
    out[end] = b'\n';
    Ok(end + 1)
}
