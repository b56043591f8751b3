// The frame of a line.
ghost use Rattle.reading.specs.Line.{LineRead};

use frames::Frame;
use frames::read::read;
use refusals::Refusal;
use text::digits::{LONGEST, decode};

// The frame that a line's digits spell, tested for digits first; its bytes are read into `room`.
pub fn read_line<'a>(line: &[u8], room: &'a mut [u8; LONGEST]) -> Result<Frame<'a>, Refusal>
    ensures { LineRead line.now result }
{
    let count = decode(line, room)?;
    Ok(read(&room[..count])?)
}
