// The rows of a node table.

// The nodes that drive a gate: the first `count` places of `nodes`, in the row itself, since only the lent table keeps
// them.
#[derive(Clone, Copy)]
pub struct Sources {
    pub count: u8,
    pub nodes: [u16; 4],
}

// A list of no sources, or of more than a gate has.
#[derive(Clone, Copy, PartialEq, Eq, Debug)]
pub struct WrongFan;

// A row of the node table. A free row holds no node. The fields stand in the enum itself: callers who
// fill a table write them there.
#[derive(Clone, Copy)]
pub enum Node {
    Free,
    Input {
        phase: u8,
        earliest: u32,
        latest: u32,
    },
    Gate {
        phase: u8,
        least: u32,
        greatest: u32,
        sources: Sources,
    },
    Latch {
        phase: u8,
        least: u32,
        greatest: u32,
        setup: u32,
        hold: u32,
        source: Option<u16>,
    },
}
