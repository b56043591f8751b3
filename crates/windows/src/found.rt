// What the sweeps of the latest kind have found.
ghost use Rattle.std.specs.Prelude.{◌≡◌, ◌≤◌, length};
ghost use Rattle.windows.specs.Found.{EndsBy};

use design::nodes::Node;
use kinds::arrival::Arrival;

// Whether every window has an end, or else the lowest latch whose window has none.
#[derive(Clone, Copy, PartialEq, Eq, Debug)]
pub enum Ends {
    All,
    NoneAt { latch: u16 },
}

// Which windows the sweeps of the latest kind found to have an end, and how many were made.
#[derive(Clone, Copy, PartialEq, Eq, Debug)]
pub struct LatestSweeps {
    pub ends: Ends,
    pub sweeps: usize,
}

// The lowest latch that starts without an end, if there is one.
pub(crate) fn ends_of(nodes: &[Node], starts: &[Arrival]) -> Ends
    requires few { length nodes.now ≤ 4096 }
    requires starts_fit { length nodes.now ≤ length starts.now }
    ensures { EndsBy nodes.now starts.now result }
{
    for v in 0..nodes.len() {
        if nodes[v].is_latch() && matches!(starts[v], Arrival::NoEnd) {
            return Ends::NoneAt { latch: v as u16 };
        }
    }
    Ends::All
}
