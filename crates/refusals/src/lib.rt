// The fourteen refusals with their numbers, the layer that gives each, and the fault of a whole text.
#![tactic(auto)]

ghost use Rattle.std.specs.Prelude.{◌≡◌};
ghost use Rattle.refusals.specs.Numbers.{number_of};
ghost use Rattle.refusals.specs.Layers.{layer_of, fault_of};

// Why a line or a call is refused; each case is one test.
#[derive(Clone, Copy, PartialEq, Eq, Debug)]
pub enum Refusal {
    // As many rows are granted as the book takes, or a text is longer than a program reads.
    Full = 1,
    // A phase that the schedule does not have.
    Phase,
    // An earliest time above the latest, or a least delay above the greatest.
    Span,
    // A figure of a row above its limit.
    Figure,
    // A gate with another count of sources than 1 to 4.
    Fan,
    // No such node, or one of a kind that is not allowed there.
    Node,
    // A victim that is its own aggressor, or that has the aggressor already.
    Pair,
    // Assisting amounts of a victim that would exceed its least delay.
    Assist,
    // A schedule that is not lawful, or that has another number of phases than the one before.
    Clock,
    // A seal while a latch has no source.
    Unfed,
    // A table or a buffer with fewer places than the call needs.
    Short,
    // A line that is empty, has half a byte, or has a character that is no digit.
    Digits,
    // Bytes of an unknown kind, with an unknown rule, or of a wrong length.
    Frame,
    // A call that the state of the book does not take.
    Order,
}

// The layer of reading that a refusal comes from.
#[derive(Clone, Copy, PartialEq, Eq, Debug)]
pub enum Layer {
    Digits,
    Frame,
    Book,
}

// The first refused line of a whole text: its number from 1, the layer that refused it, and why.
#[derive(Clone, Copy, PartialEq, Eq, Debug)]
pub struct Fault {
    pub line: usize,
    pub layer: Layer,
    pub refusal: Refusal,
}

// The number of a refusal.
impl From<Refusal> for u8 {
    ghost from_gives = { λ refusal number. number ≡ number_of refusal };

    fn from(refusal: Refusal) -> u8 {
        refusal as u8
    }
}

impl From<Refusal> for Layer {
    ghost from_gives = { λ refusal layer. layer ≡ layer_of refusal };

    fn from(refusal: Refusal) -> Layer {
        match refusal {
            Refusal::Digits => Layer::Digits,
            Refusal::Frame => Layer::Frame,
            _ => Layer::Book,
        }
    }
}

impl Fault {
    // The fault of a refusal at a line.
    pub fn at(line: usize, refusal: Refusal) -> Self
        ensures { result ≡ fault_of line refusal }
    {
        Fault {
            line,
            layer: refusal.into(),
            refusal,
        }
    }
}
