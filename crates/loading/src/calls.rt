// The call that a frame asks for.
ghost use Rattle.std.specs.Prelude.{◌≡◌, take};
ghost use Rattle.frames.specs.Contents.{content_of};
ghost use Rattle.loading.specs.Asking.{sources_listed, AskedBy};

use design::calls::{Call, Gate, Input, Latch};
use design::couplings::Coupling;
use frames::Frame;
use reading::listed::{figures_of, source_at};
use refusals::Refusal;

// How many sources a frame can list at most: its count is one byte.
pub(crate) const MOST_LISTED: usize = 255;

// Reads the first `count` sources that a frame lists into `room`.
fn list_sources(count: u8, bytes: &[u8], room: &mut [u16; MOST_LISTED])
    ensures { take count room.new ≡ sources_listed count bytes.now }
{
    // By index: only as many places are read as the frame counts, not all 255.
    for k in 0..usize::from(count) {
        room[k] = source_at(bytes, 2 * k);
    }
}

// The call that a frame asks of a book: a schedule opens a book that is not opened, and retimes an open one.
// The sources that a gate lists are read into `room`.
pub(crate) fn call_of<'a>(
    opened: bool,
    frame: &Frame<'_>,
    room: &'a mut [u16; MOST_LISTED],
) -> Result<Call<'a>, Refusal>
    ensures { AskedBy opened (content_of frame.now) result }
{
    match *frame {
        Frame::Schedule {
            period,
            proximity,
            count,
            phases,
        } => {
            let figures = figures_of(period, proximity, count, phases);
            if opened {
                Ok(Call::Retime { figures })
            } else {
                Ok(Call::Open { figures })
            }
        }
        Frame::Input {
            phase,
            earliest,
            latest,
        } => Ok(Call::Input(Input {
            phase,
            earliest,
            latest,
        })),
        Frame::Gate {
            phase,
            least,
            greatest,
            count,
            sources,
        } => {
            list_sources(count, sources, room);
            Ok(Call::Gate(Gate {
                phase,
                least,
                greatest,
                sources: &room[..usize::from(count)],
            }))
        }
        Frame::Latch {
            phase,
            least,
            greatest,
            setup,
            hold,
        } => Ok(Call::Latch(Latch {
            phase,
            least,
            greatest,
            setup,
            hold,
        })),
        Frame::Feed { latch, source } => Ok(Call::Feed { latch, source }),
        Frame::Couple {
            victim,
            aggressor,
            assisting,
            opposing,
        } => Ok(Call::Couple(Coupling {
            victim,
            aggressor,
            assisting,
            opposing,
        })),
        Frame::Verify { .. } => Err(Refusal::Order),
        Frame::Seal => Ok(Call::Seal),
        Frame::Reopen => Ok(Call::Reopen),
    }
}
