// The calls that make or change the table of a book, as data, and what a granted one answers.
use super::couplings::Coupling;
use schedule::figures::Figures;

// An input that is to be added.
#[derive(Clone, Copy)]
pub struct Input {
    pub phase: u8,
    pub earliest: u32,
    pub latest: u32,
}

// A gate that is to be added, with the nodes that drive it.
#[derive(Clone, Copy)]
pub struct Gate<'a> {
    pub phase: u8,
    pub least: u32,
    pub greatest: u32,
    pub sources: &'a [u16],
}

// A latch that is to be added.
#[derive(Clone, Copy)]
pub struct Latch {
    pub phase: u8,
    pub least: u32,
    pub greatest: u32,
    pub setup: u32,
    pub hold: u32,
}

// A call that makes or changes the table of a book.
#[derive(Clone, Copy)]
pub enum Call<'a> {
    Open { figures: Figures },
    Input(Input),
    Gate(Gate<'a>),
    Latch(Latch),
    Feed { latch: u16, source: u16 },
    Couple(Coupling),
    Seal,
    Reopen,
    Retime { figures: Figures },
}

// What a granted call answers: the number of the node or coupling that it added, or only that it was done.
#[derive(Clone, Copy)]
pub enum Answer {
    Done,
    Node(u16),
    Coupling(u16),
}
