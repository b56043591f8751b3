// Sweeps made one after another, until no latch has more to pass on.
ghost use Rattle.std.specs.Prelude.{◌≡◌, ◌≤◌, ◌+◌, ◌*◌, ℕ, ◌<◌, length, drop};
ghost use Rattle.paths.specs.Networks.{Sound, latch_count};
ghost use Rattle.rings.specs.Settling.{Settled};
ghost use Rattle.windows.specs.Blocks.{nodes_before, AllLeads, StillBut, ClimbsWake};
ghost use Rattle.windows.specs.Seen.{figure_at, network_of, course_of};
ghost use Rattle.windows.specs.Rings.{first_of, PassedOn, Started};

use super::blocks::Blocks;
use super::circuit::Circuit;
use super::column::Column;
use super::sweep::at;
use kinds::DelayKind;

fn count_latches(circuit: &Circuit<'_>) -> usize
    ensures value { result ≡ latch_count (network_of circuit.now) }
    ensures few { result ≤ length circuit.now.nodes.now }
{
    let mut count = 0;
    for v in 0..circuit.nodes.len() {
        if circuit.row(v).is_latch() {
            count += 1;
        }
    }
    count
}

// Each latch starts from its opening edge. Other nodes have places here too, which no sweep reads.
fn start_all<K: DelayKind>(circuit: &Circuit<'_>, starts: &mut [K::Figure])
    requires { length circuit.now.nodes.now ≤ length starts.old }
    ensures { Started K.kind.no_path (first_of K.starts_with circuit.now) (length circuit.now.nodes.now) starts.old starts.new }
{
    for v in 0..circuit.nodes.len() {
        starts[v] = K::start(circuit.start(v));
    }
}

// Lets each latch of a block start from what came to it, where that is more. What climbs when `limit` sweeps were made
// before has no end. Whether any of them climbs is the answer.
fn pass_on_block<K: DelayKind>(
    circuit: &Circuit<'_>,
    column: &Column<'_, K>,
    starts: &mut [K::Figure],
    made: usize,
    limit: usize,
    block: usize,
) -> bool
    requires within { block < 256 }
    requires fits { length circuit.now.nodes.now ≤ length starts.old }
    ensures { PassedOn K.kind.no_path K.restarts (network_of circuit.now) made limit (nodes_before (length circuit.now.nodes.now) block) (nodes_before (length circuit.now.nodes.now) (block + 1)) column.now.figures.now starts.old starts.new result }
{
    let mut climbs = false;
    for v in circuit.nodes_before(block)..circuit.nodes_before(block + 1) {
        let start = at::<K>(starts, v);
        let arrival = column.at(v);
        if circuit.row(v).is_latch() && K::climbs(start, arrival) {
            climbs = true;
            starts[v] = if made < limit {
                K::restart(start, arrival)
            } else {
                K::without_end(start, arrival)
            };
        }
    }
    climbs
}

// Lets each latch start from what came to it, where that is more. No latch of a block that is not stale climbs; stale from
// now on are the blocks with a latch that climbs, and those that they lead to. Whether any latch climbs is the answer.
fn pass_on<K: DelayKind>(
    circuit: &Circuit<'_>,
    column: &Column<'_, K>,
    starts: &mut [K::Figure],
    made: usize,
    limit: usize,
    stale: &mut Blocks,
) -> bool
    requires few { length circuit.now.nodes.now ≤ 4096 }
    requires fits { length circuit.now.nodes.now ≤ length starts.old }
    requires still { StillBut K.restarts (network_of circuit.now) (figure_at K.kind.no_path starts.old) (figure_at K.kind.no_path column.now.figures.now) stale.old }
    ensures passed { PassedOn K.kind.no_path K.restarts (network_of circuit.now) made limit 0 (length circuit.now.nodes.now) column.now.figures.now starts.old starts.new result }
    ensures woken { ClimbsWake K.restarts (network_of circuit.now) circuit.now.leads.now (length circuit.now.nodes.now) (figure_at K.kind.no_path starts.old) (figure_at K.kind.no_path column.now.figures.now) stale.new }
{
    let mut climbs = false;
    let mut woken = Blocks::none();
    let blocks = circuit.blocks();
    let mut next = stale.next(0, blocks);
    while let Some(block) = next {
        if pass_on_block::<K>(circuit, column, starts, made, limit, block) {
            climbs = true;
            woken.add(block);
            circuit.leads.wake(block, &mut woken);
        }
        next = stale.next(block + 1, blocks);
    }
    *stale = woken;
    climbs
}

// Sweeps until no latch climbs, and answers how many sweeps were made. A figure of a latch that climbs when as many
// sweeps were made before as the latches have figures is taken to have no end, and then climbs no more.
pub(crate) fn settle<K: DelayKind>(
    circuit: &Circuit<'_>,
    starts: &mut [K::Figure],
    column: &mut Column<'_, K>,
) -> usize
    requires few { length circuit.now.nodes.now ≤ 4096 }
    requires leads { AllLeads (network_of circuit.now) circuit.now.leads.now }
    requires starts_fit { length circuit.now.nodes.now ≤ length starts.old }
    requires column_fits { length circuit.now.nodes.now ≤ length column.old.figures.now }
    ensures settled { Sound (network_of circuit.now) → (made : ℕ) × (result ≡ made + 1) × Settled K.kind (network_of circuit.now) (course_of K.starts_with K.between circuit.now) K.restarts (latch_count (network_of circuit.now) * K.FIGURES) (first_of K.starts_with circuit.now) made (figure_at K.kind.no_path starts.new) (figure_at K.kind.no_path column.new.figures.now) }
    ensures beyond { drop (length circuit.now.nodes.now) column.new.figures.now ≡ drop (length circuit.now.nodes.now) column.old.figures.now }
    ensures same_slice { column.new.figures.ghost_name ≡ column.old.figures.ghost_name }
    ensures same_length { length column.new.figures.now ≡ length column.old.figures.now }
    ensures same_starts { length starts.new ≡ length starts.old }
{
    let limit = count_latches(circuit) * usize::from(K::FIGURES);
    start_all::<K>(circuit, starts);
    let mut stale = Blocks::all();
    let mut made = 0;
    loop {
        column.sweep(circuit, starts, &mut stale);
        if !pass_on(circuit, column, starts, made, limit, &mut stale) {
            break made + 1;
        }
        made += 1;
    }
}
