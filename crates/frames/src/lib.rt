// Frames: what a line of a text says, once its digits are read.
#![tactic(auto)]

ghost use Rattle.std.specs.Prelude.{◌≡◌};
ghost use Rattle.refusals.specs.declared.Refusal.TheVariants.{Frame as FrameRefusal};

use refusals::Refusal;
use rules::Rule;

pub mod kinds;
pub mod read;
pub mod rules;
pub mod write;

// A frame with its fields in the order of the format. `phases` and `sources` are the bytes of what
// a schedule or a gate lists, `count` of them: 8 bytes for a phase and 2 for a source. `count` is a field of
// the format, and writing refuses a frame that lists another number: a narrower type would ask more of callers.
#[derive(Clone, Copy)]
pub enum Frame<'a> {
    Schedule {
        period: u32,
        proximity: u32,
        count: u8,
        phases: &'a [u8],
    },
    Input {
        phase: u8,
        earliest: u32,
        latest: u32,
    },
    Gate {
        phase: u8,
        least: u32,
        greatest: u32,
        count: u8,
        sources: &'a [u8],
    },
    Latch {
        phase: u8,
        least: u32,
        greatest: u32,
        setup: u32,
        hold: u32,
    },
    Feed {
        latch: u16,
        source: u16,
    },
    Couple {
        victim: u16,
        aggressor: u16,
        assisting: u32,
        opposing: u32,
    },
    Verify {
        rule: Rule,
    },
    Seal,
    Reopen,
}

// Bytes that are no frame: their kind or rule is unknown, or they are longer or shorter than their kind and
// count say.
#[derive(Clone, Copy, PartialEq, Eq, Debug)]
pub struct NotAFrame;

impl From<NotAFrame> for Refusal {
    ghost from_gives = { λ _ refusal. refusal ≡ FrameRefusal };

    fn from(_none: NotAFrame) -> Refusal {
        Refusal::Frame
    }
}
