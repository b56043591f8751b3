// What a kind of delay is made from: when paths start, and what the nodes that they pass delay.

// When a path may start at an input or a latch: from the earliest moment to the latest.
#[derive(Clone, Copy, PartialEq, Eq, Debug)]
pub struct Start {
    pub earliest: i64,
    pub latest: i64,
}

// The least and the greatest delay of a node.
#[derive(Clone, Copy, PartialEq, Eq, Debug)]
pub struct Delays {
    pub least: i64,
    pub greatest: i64,
}
