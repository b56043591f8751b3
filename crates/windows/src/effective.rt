// The delays that nodes have in effect while couplings act.
ghost use Rattle.std.specs.Prelude.{◌≡◌, ℕ, ◌<◌, ◌≤◌, length};
ghost use Rattle.timing.specs.Connections.{row};
ghost use Rattle.timing.specs.Delays.{own_greatest, delays_under};
ghost use Rattle.windows.specs.Delays.{delays_at};
ghost use Rattle.windows.specs.Effective.{is_flagged, own_delays, no_delays, IsSmall, AmountsSmall, disturbed, disturbed_at};

use super::flags::Flag;
use design::couplings::Coupling;
use design::nodes::Node;
use kinds::timings::Delays;

// The delays of so many nodes, in one place of fixed size, so that a sweep reads them at once for each node.
#[derive(Drop)]
pub(crate) struct Effective<const N: usize> {
    places: [Delays; N],
}

// The greatest delay of a row: 0 for an input or a free row, which have none.
fn greatest_delay(node: &Node) -> u32
    ensures { result ≡ own_greatest node.now }
{
    match *node {
        Node::Gate { greatest, .. } | Node::Latch { greatest, .. } => greatest,
        _ => 0,
    }
}

// The delays of a row by itself. Here and below, a clause `small` says what the types of the figures say, to callers that
// do not read them.
fn own_delays(node: &Node) -> Delays
    ensures delays { result ≡ own_delays node.now }
    ensures small { IsSmall result }
{
    Delays {
        least: i64::from(node.least_delay()),
        greatest: i64::from(greatest_delay(node)),
    }
}

// The delays of its victim with a coupling; where one would leave 64 bits it stays at their end.
fn disturbed(delays: Delays, coupling: &Coupling) -> Delays
    ensures delays { result ≡ disturbed coupling.now delays }
    ensures small { AmountsSmall coupling.now }
{
    Delays {
        least: delays.least.saturating_sub(i64::from(coupling.assisting)),
        greatest: delays.greatest.saturating_add(i64::from(coupling.opposing)),
    }
}

// Whether the flag at a place is set; a place that is not there is clear.
fn is_flagged(flags: &[Flag], k: usize) -> bool
    ensures { result ≡ is_flagged flags.now k }
{
    matches!(flags.get(k), Some(Flag::Set))
}

impl<const N: usize> Effective<N> {
    // No place has delays yet.
    pub(crate) fn none() -> Effective<N>
        ensures { result.places ≡ no_delays N }
    {
        Effective {
            places: [Delays {
                least: 0,
                greatest: 0,
            }; N],
        }
    }

    // Fills the places with the delays of rows by themselves; rows past the last place are left out. They are filled where
    // they stand, since it takes long to copy as many as a book may have.
    pub(crate) fn fill(&mut self, nodes: &[Node])
        requires { self.old.places ≡ no_delays N }
        ensures delays { (v : ℕ) → v < N → delays_at self.new.places v ≡ own_delays (row nodes.now v) }
        ensures small { (v : ℕ) → IsSmall (delays_at self.new.places v) }
    {
        for (v, node) in nodes.iter().enumerate() {
            if v < self.places.len() {
                self.places[v] = own_delays(node);
            }
        }
    }

    // A coupling acts: its opposing amount goes to the greatest delay of its victim, and its assisting amount off the least.
    pub(crate) fn add(&mut self, coupling: &Coupling)
        ensures small { coupling.now.victim < N → AmountsSmall coupling.now }
        ensures delays { (v : ℕ) → v < N → delays_at self.new.places v ≡ disturbed_at coupling.now v (delays_at self.old.places v) }
    {
        let victim = usize::from(coupling.victim);
        if victim < self.places.len() {
            self.places[victim] = disturbed(self.places[victim], coupling);
        }
    }

    // The delays of rows under the couplings whose flags are set.
    pub(crate) fn under(nodes: &[Node], couplings: &[Coupling], flags: &[Flag]) -> Effective<N>
        ensures { length couplings.now ≤ 1024 → (v : ℕ) → v < N → delays_at result.places v ≡ delays_under nodes.now couplings.now (is_flagged flags.now) v }
    {
        let mut effective = Effective::none();
        effective.fill(nodes);
        for (k, coupling) in couplings.iter().enumerate() {
            if is_flagged(flags, k) {
                effective.add(coupling);
            }
        }
        effective
    }

    // The delays of all places.
    pub(crate) fn list(&self) -> &[Delays]
        ensures places { result.now ≡ self.now.places }
        ensures count { length result.now ≡ N }
    {
        &self.places
    }
}
