// One sweep, for any kind of delay.
ghost use Rattle.std.specs.Prelude.{◌≡◌, ◌<◌, ◌≤◌, ◌+◌, true, false, length, drop};
ghost use Rattle.paths.specs.Networks.{Sound};
ghost use Rattle.paths.specs.Sweeps.{Swept, leaving, own, along, arrival};
ghost use Rattle.windows.specs.Blocks.{nodes_before, AllLeads, FreshBut, Filled, KeptBut};
ghost use Rattle.windows.specs.Seen.{figure_at, network_of, course_of};

use super::blocks::Blocks;
use super::circuit::Circuit;
use super::connections::sources;
use design::nodes::Node;
use kinds::DelayKind;

// The figure at a place; a place that is not there has that of a node without a path.
pub(crate) fn at<K: DelayKind>(figures: &[K::Figure], place: usize) -> K::Figure
    ensures { result ≡ figure_at K.kind.no_path figures.now place }
{
    match figures.get(place) {
        Some(figure) => *figure,
        None => K::no_path(),
    }
}

// The figure with which a node is left.
pub(crate) fn leaving<K: DelayKind>(
    circuit: &Circuit<'_>,
    starts: &[K::Figure],
    column: &[K::Figure],
    k: usize,
) -> K::Figure
    ensures { result ≡ leaving (network_of circuit.now) (figure_at K.kind.no_path starts.now) (figure_at K.kind.no_path column.now) k }
{
    if circuit.row(k).is_latch() {
        at::<K>(starts, k)
    } else {
        at::<K>(column, k)
    }
}

// The figure that a node has of its own: an input starts with one.
pub(crate) fn own<K: DelayKind>(circuit: &Circuit<'_>, v: usize) -> K::Figure
    ensures { result ≡ own K.kind (network_of circuit.now) (course_of K.starts_with K.between circuit.now) v }
{
    match circuit.row(v) {
        Node::Input { .. } => K::start(circuit.start(v)),
        _ => K::no_path(),
    }
}

// The step of a connection.
pub(crate) fn step_between<K: DelayKind>(circuit: &Circuit<'_>, from: usize, to: usize) -> K::Step
    ensures { result ≡ (course_of K.starts_with K.between circuit.now).step from to }
{
    K::between(
        circuit.delays(from),
        circuit.delays(to),
        circuit.shift(from, to),
    )
}

// The figure that comes along a connection.
fn along<K: DelayKind>(
    circuit: &Circuit<'_>,
    starts: &[K::Figure],
    column: &[K::Figure],
    from: usize,
    to: usize,
) -> K::Figure
    ensures { result ≡ along K.kind (network_of circuit.now) (course_of K.starts_with K.between circuit.now) (figure_at K.kind.no_path starts.now) (figure_at K.kind.no_path column.now) to from }
{
    let step = step_between::<K>(circuit, from, to);
    K::step(leaving::<K>(circuit, starts, column, from), step)
}

// The figure that comes to a node, along all of its connections.
fn arrival<K: DelayKind>(
    circuit: &Circuit<'_>,
    starts: &[K::Figure],
    column: &[K::Figure],
    v: usize,
) -> K::Figure
    ensures { result ≡ arrival K.kind (network_of circuit.now) (course_of K.starts_with K.between circuit.now) (figure_at K.kind.no_path starts.now) (figure_at K.kind.no_path column.now) v }
{
    let mut figure = own::<K>(circuit, v);
    for source in sources(circuit.row(v)) {
        let from = usize::from(*source);
        figure = K::join(figure, along::<K>(circuit, starts, column, from, v));
    }
    figure
}

// Fills the places of the nodes of a block that are no latches with what comes to them, in their order. Whether any figure
// is another than before is the answer.
fn fill_others<K: DelayKind>(
    circuit: &Circuit<'_>,
    starts: &[K::Figure],
    column: &mut [K::Figure],
    block: usize,
) -> bool
    requires within { block < 256 }
    requires fits { length circuit.now.nodes.now ≤ length column.old }
    ensures filled { Filled K.kind (network_of circuit.now) (course_of K.starts_with K.between circuit.now) (figure_at K.kind.no_path starts.now) false (nodes_before (length circuit.now.nodes.now) block) (nodes_before (length circuit.now.nodes.now) (block + 1)) column.old column.new }
    ensures same { result ≡ false → column.new ≡ column.old }
{
    let mut changed = false;
    for v in circuit.nodes_before(block)..circuit.nodes_before(block + 1) {
        if !circuit.row(v).is_latch() {
            let figure = arrival::<K>(circuit, starts, column, v);
            if !K::same(figure, column[v]) {
                column[v] = figure;
                changed = true;
            }
        }
    }
    changed
}

// Fills the places of the latches of a block, which nothing in the column is made from.
fn fill_latches<K: DelayKind>(
    circuit: &Circuit<'_>,
    starts: &[K::Figure],
    column: &mut [K::Figure],
    block: usize,
)
    requires within { block < 256 }
    requires fits { length circuit.now.nodes.now ≤ length column.old }
    ensures { Filled K.kind (network_of circuit.now) (course_of K.starts_with K.between circuit.now) (figure_at K.kind.no_path starts.now) true (nodes_before (length circuit.now.nodes.now) block) (nodes_before (length circuit.now.nodes.now) (block + 1)) column.old column.new }
{
    for v in circuit.nodes_before(block)..circuit.nodes_before(block + 1) {
        if circuit.row(v).is_latch() {
            column[v] = arrival::<K>(circuit, starts, column, v);
        }
    }
}

// Fills the places of a column that stand for nodes with what comes to them, where the nodes of blocks that are not stale
// are filled already: first all but the latches, in their order, and then the latches. A block becomes stale where a
// figure may have changed from which one of its own is made.
pub(crate) fn fill<K: DelayKind>(
    circuit: &Circuit<'_>,
    starts: &[K::Figure],
    column: &mut [K::Figure],
    stale: &mut Blocks,
)
    requires few { length circuit.now.nodes.now ≤ 4096 }
    requires fits { length circuit.now.nodes.now ≤ length column.old }
    requires leads { AllLeads (network_of circuit.now) circuit.now.leads.now }
    ensures swept { Sound (network_of circuit.now) → FreshBut K.kind (network_of circuit.now) (course_of K.starts_with K.between circuit.now) (figure_at K.kind.no_path starts.now) (figure_at K.kind.no_path column.old) stale.old → Swept K.kind (network_of circuit.now) (course_of K.starts_with K.between circuit.now) (figure_at K.kind.no_path starts.now) (figure_at K.kind.no_path column.new) }
    ensures kept { KeptBut K.kind.no_path stale.old stale.new column.old column.new }
    ensures beyond { drop (length circuit.now.nodes.now) column.new ≡ drop (length circuit.now.nodes.now) column.old }
{
    let blocks = circuit.blocks();
    let mut next = stale.next(0, blocks);
    while let Some(block) = next {
        if fill_others::<K>(circuit, starts, column, block) {
            circuit.leads.wake(block, stale);
        }
        next = stale.next(block + 1, blocks);
    }
    next = stale.next(0, blocks);
    while let Some(block) = next {
        fill_latches::<K>(circuit, starts, column, block);
        next = stale.next(block + 1, blocks);
    }
}
