// The four edges of a latch that figures are held against, and whether an arrival is late or early.
ghost use Rattle.std.specs.Prelude.{◌≡◌, ℕ, Bool, true, ◌↔◌};
ghost use Rattle.design.specs.Table.{Table};
ghost use Rattle.paths.specs.Sweeps.{arrives, arrives_short};
ghost use Rattle.rings.specs.Found.{IsLatest, IsEarliest};
ghost use Rattle.timing.specs.Connections.{row, network, late_opening, early_opening, late_bound, early_bound};
ghost use Rattle.timing.specs.Figures.{late, early};
ghost use Rattle.timing.specs.Windows.{IsLate, IsEarly};
ghost use Rattle.windows.specs.Edges.{is_late, is_early};

use design::nodes::Node;
use kinds::arrival::Arrival;
use schedule::Schedule;

// The edge at which a latch opens for late figures; 0 for a phase that the schedule lacks.
pub fn late_opening(schedule: &Schedule, phase: u8) -> i64
    ensures { result ≡ late_opening schedule.now phase }
{
    schedule.opening_edge(phase).unwrap_or(0)
}

// The edge at which a latch opens for early figures: the same.
pub fn early_opening(schedule: &Schedule, phase: u8) -> i64
    ensures { result ≡ early_opening schedule.now phase }
{
    late_opening(schedule, phase)
}

// The bound after which an arrival at a latch is late: its setup before the latch closes.
pub fn late_bound(schedule: &Schedule, setup: u32) -> i64
    ensures { result ≡ late_bound schedule.now setup }
{
    i64::from(schedule.period()) - i64::from(setup)
}

// The bound before which an arrival at a latch is early: its hold.
pub fn early_bound(hold: u32) -> i64
    ensures { result ≡ early_bound hold }
{
    i64::from(hold)
}

// Whether a latch is late, of the latest arrival there; no other node is.
pub fn is_late(schedule: &Schedule, node: &Node, latest: Arrival) -> bool
    ensures value { result ≡ is_late schedule.now node.now latest }
    ensures late { (t : Table) (S : ℕ → Bool) (v : ℕ) → schedule.now ≡ t.clock → node.now ≡ row t.nodes v → IsLatest {n = network t.nodes} {v = v} (late t S) arrives latest → (result ≡ true ↔ IsLate t S v) }
{
    match (node, latest) {
        (Node::Latch { setup, .. }, Arrival::At(figure)) => figure > late_bound(schedule, *setup),
        (Node::Latch { .. }, Arrival::NoEnd) => true,
        _ => false,
    }
}

// Whether a latch is early, of the earliest arrival there; no other node is.
pub fn is_early(node: &Node, earliest: Arrival) -> bool
    ensures value { result ≡ is_early node.now earliest }
    ensures early { (t : Table) (S : ℕ → Bool) (v : ℕ) → node.now ≡ row t.nodes v → IsEarliest {n = network t.nodes} {v = v} (early t S) arrives_short earliest → (result ≡ true ↔ IsEarly t S v) }
{
    match (node, earliest) {
        (Node::Latch { hold, .. }, Arrival::At(figure)) => figure < early_bound(*hold),
        _ => false,
    }
}
