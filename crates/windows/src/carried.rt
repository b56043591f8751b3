// What one round of a verdict leaves to the next, so that the next looks only where something can have changed.
ghost use Rattle.std.specs.Prelude.{◌≤◌, length};
ghost use Rattle.timing.specs.Connections.{network};
ghost use Rattle.windows.specs.Blocks.{LeadsKept};

use super::blocks::{Blocks, Leads};
use super::effective::Effective;
use super::rows::Rows;
use kinds::both::Arrivals;

// The rows that are judged, the delays in effect, the figures with which nodes are left, and in which blocks these may not be
// at rest. It has room for so many nodes.
#[derive(Drop)]
pub struct Carried<'a, const N: usize> {
    pub(crate) rows: Rows<'a>,
    pub(crate) leads: Leads,
    pub(crate) delays: Effective<N>,
    pub(crate) leaves: [Arrivals; N],
    pub(crate) stale: Blocks,
    ghost fits: { length rows.nodes.now ≤ N },
    ghost few: { length rows.nodes.now ≤ 4096 },
    ghost led: { LeadsKept (network rows.nodes.now) leads },
}
