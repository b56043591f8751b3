// How many bytes the output of a text may have.
ghost use Rattle.std.specs.Prelude.{◌≡◌, ◌-◌, ◌^◌, min};
ghost use Rattle.printing.specs.Room.{most_printed, room_for};

use frames::Frame;
use reading::line::read_line;
use reporting::report::{FLAG_LINE, VERDICT_LINE, WINDOW_LINE};
use states::counts::{MOST_COUPLINGS, MOST_NODES};
use text::digits::LONGEST;
use text::lines::Lines;

// How many bytes the longest reply has: the report of a verdict on as many nodes and couplings as a book takes.
pub(crate) const LONGEST_REPLY: usize = VERDICT_LINE
    + WINDOW_LINE * MOST_NODES
    + FLAG_LINE * MOST_COUPLINGS;

// How many bytes the longest answer has that is no verdict: three in digits, and a line feed.
const LONGEST_ANSWER: usize = 7;

// The most bytes that are printed for a line.
fn most_printed(line: &[u8]) -> usize
    ensures { result ≡ most_printed line.now }
{
    let mut room = [0; LONGEST];
    match read_line(line, &mut room) {
        Ok(Frame::Verify { .. }) => LONGEST_REPLY,
        _ => LONGEST_ANSWER,
    }
}

// The most bytes that the output of a text has, up to the greatest count: so much room is enough for it.
pub fn room_for(text: &[u8]) -> usize
    ensures { result ≡ min (room_for text.now) (2 ^ 64 - 1) }
{
    let mut room: usize = 0;
    for line in Lines::new(text) {
        room = room.saturating_add(most_printed(line.bytes));
    }
    room
}
