// Nodes visited in place: each is left at once with what came to it.
ghost use Rattle.std.specs.Prelude.{◌≡◌, ℕ, ◌<◌, ◌≤◌, ◌+◌, ◌*◌, true, length};
ghost use Rattle.paths.specs.Networks.{Sound};
ghost use Rattle.rings.specs.InPlace.{comes, visited, Visits};
ghost use Rattle.windows.specs.Blocks.{nodes_before, AllLeads};
ghost use Rattle.windows.specs.InPlace.{RestBut, NoneStale, VisitedInOrder};
ghost use Rattle.windows.specs.Seen.{figure_at, network_of, course_of};

use super::blocks::Blocks;
use super::circuit::Circuit;
use super::connections::sources;
use super::sweep::{at, own, step_between};
use kinds::DelayKind;

// How many passes are made at most before sweeps that tell the whole settle what still climbs.
const PASSES: usize = 16;

// The figure that comes to a node, along all of its connections, where each node is left with what its place holds.
pub(crate) fn comes<K: DelayKind>(
    circuit: &Circuit<'_>,
    leaves: &[K::Figure],
    v: usize,
) -> K::Figure
    ensures { result ≡ comes K.kind (network_of circuit.now) (course_of K.starts_with K.between circuit.now) (figure_at K.kind.no_path leaves.now) v }
{
    let mut figure = own::<K>(circuit, v);
    for source in sources(circuit.row(v)) {
        let from = usize::from(*source);
        let step = step_between::<K>(circuit, from, v);
        figure = K::join(figure, K::step(at::<K>(leaves, from), step));
    }
    figure
}

// The figure with which a node is left once it is visited.
fn visited<K: DelayKind>(circuit: &Circuit<'_>, leaves: &[K::Figure], v: usize) -> K::Figure
    requires { v < length leaves.now }
    ensures { result ≡ visited K.kind (network_of circuit.now) (course_of K.starts_with K.between circuit.now) K.restarts (figure_at K.kind.no_path leaves.now) v }
{
    let came = comes::<K>(circuit, leaves, v);
    let left = leaves[v];
    if !circuit.row(v).is_latch() {
        came
    } else if K::climbs(left, came) {
        K::restart(left, came)
    } else {
        left
    }
}

// Visits the nodes of a block in their order. Whether any is left with another figure than before is the answer.
fn visit_block<K: DelayKind>(circuit: &Circuit<'_>, leaves: &mut [K::Figure], block: usize) -> bool
    requires within { block < 256 }
    requires fits { length circuit.now.nodes.now ≤ length leaves.old }
    ensures { VisitedInOrder K.kind (network_of circuit.now) (course_of K.starts_with K.between circuit.now) K.restarts (nodes_before (length circuit.now.nodes.now) block) (nodes_before (length circuit.now.nodes.now) (block + 1)) leaves.old leaves.new result }
{
    let mut changed = false;
    for v in circuit.nodes_before(block)..circuit.nodes_before(block + 1) {
        let figure = visited::<K>(circuit, leaves, v);
        if !K::same(figure, leaves[v]) {
            leaves[v] = figure;
            changed = true;
        }
    }
    changed
}

// Visits the nodes of all stale blocks once, in their order, and those of blocks that become stale before them.
fn pass<K: DelayKind>(circuit: &Circuit<'_>, leaves: &mut [K::Figure], stale: &mut Blocks)
    requires few { length circuit.now.nodes.now ≤ 4096 }
    requires fits { length circuit.now.nodes.now ≤ length leaves.old }
    requires leads { AllLeads (network_of circuit.now) circuit.now.leads.now }
    ensures rest { Sound (network_of circuit.now) → RestBut K.kind (network_of circuit.now) (course_of K.starts_with K.between circuit.now) K.restarts (figure_at K.kind.no_path leaves.old) stale.old → RestBut K.kind (network_of circuit.now) (course_of K.starts_with K.between circuit.now) K.restarts (figure_at K.kind.no_path leaves.new) stale.new }
    ensures visits { (count : ℕ) × (count ≤ 4096) × Visits K.kind (network_of circuit.now) (course_of K.starts_with K.between circuit.now) K.restarts count (figure_at K.kind.no_path leaves.old) (figure_at K.kind.no_path leaves.new) }
    ensures long { length leaves.new ≡ length leaves.old }
{
    let blocks = circuit.blocks();
    let mut next = stale.next(0, blocks);
    while let Some(block) = next {
        stale.remove(block);
        if visit_block::<K>(circuit, leaves, block) {
            circuit.leads.wake(block, stale);
        }
        next = stale.next(block + 1, blocks);
    }
}

// Passes over stale blocks until none with nodes is stale, but no more than so many times. Whether so many were enough is
// the answer; then no block at all is stale.
pub(crate) fn approach<K: DelayKind>(
    circuit: &Circuit<'_>,
    leaves: &mut [K::Figure],
    stale: &mut Blocks,
) -> bool
    requires few { length circuit.now.nodes.now ≤ 4096 }
    requires fits { length circuit.now.nodes.now ≤ length leaves.old }
    requires leads { AllLeads (network_of circuit.now) circuit.now.leads.now }
    ensures rest { Sound (network_of circuit.now) → RestBut K.kind (network_of circuit.now) (course_of K.starts_with K.between circuit.now) K.restarts (figure_at K.kind.no_path leaves.old) stale.old → RestBut K.kind (network_of circuit.now) (course_of K.starts_with K.between circuit.now) K.restarts (figure_at K.kind.no_path leaves.new) stale.new }
    ensures visits { (count : ℕ) × (count ≤ 65536) × Visits K.kind (network_of circuit.now) (course_of K.starts_with K.between circuit.now) K.restarts count (figure_at K.kind.no_path leaves.old) (figure_at K.kind.no_path leaves.new) }
    ensures none { result ≡ true → NoneStale stale.new }
    ensures long { length leaves.new ≡ length leaves.old }
{
    let blocks = circuit.blocks();
    let mut passes = 0;
    while stale.next(0, blocks).is_some() {
        if passes == PASSES {
            return false;
        }
        pass::<K>(circuit, leaves, stale);
        passes += 1;
    }
    *stale = Blocks::none();
    true
}
