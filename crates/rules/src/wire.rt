// One side of a coupling.
use timing::windows::Window;

// A wire: the node that drives it, the phase of that node, and the window in which it may switch, counted from the start
// of that phase.
#[derive(Clone, Copy, PartialEq, Eq, Debug)]
pub struct Wire {
    pub node: u16,
    pub phase: u8,
    pub window: Window,
}
