// Windows: from when to when a node may switch.

// The first and the last moment, counted from the start of the node's phase.
#[derive(Clone, Copy, PartialEq, Eq, Debug)]
pub struct Window {
    pub begins: i64,
    pub ends: i64,
}
