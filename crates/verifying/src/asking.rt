// Flags, and the couplings that a rule sees.
ghost use Rattle.std.specs.Prelude.{◌≡◌, ◌+◌, ◌<◌, ◌≤◌, length};
ghost use Rattle.windows.specs.Carried.{window_in};
ghost use Rattle.verifying.specs.Asking.{wire_in, seen_in, Cleared, FlaggedOne, FlaggedSeen, Acted};

use design::couplings::Coupling;
use design::nodes::Node;
use rules::CouplingRule;
use rules::wire::Wire;
use windows::carried::Carried;
use windows::flags::Flag;
use windows::rows::Rows;

// Clears the flags of the first so many couplings.
pub(crate) fn clear(flags: &mut [Flag], count: usize)
    requires { count ≤ length flags.old }
    ensures { Cleared count flags.old flags.new }
{
    for k in 0..count {
        flags[k] = Flag::Clear;
    }
}

// The wire of a node with the window that was found of it; a row that is not there is free.
fn wire<const N: usize>(rows: &Rows<'_>, carried: &Carried<'_, N>, node: u16) -> Wire
    ensures { result ≡ wire_in rows.now.nodes.now (window_in carried.now) node }
{
    let place = usize::from(node);
    Wire {
        node,
        phase: rows.nodes.get(place).map_or(0, Node::phase),
        window: carried.window(place),
    }
}

// Whether a rule sees a coupling, with the windows of its two nodes.
fn sees<R: CouplingRule, const N: usize>(
    rows: &Rows<'_>,
    carried: &Carried<'_, N>,
    rule: &R,
    coupling: &Coupling,
) -> bool
    ensures { result ≡ seen_in rows.now.schedule.now rows.now.nodes.now (window_in carried.now) (R.meaning rule.now) coupling.now }
{
    let victim = wire(rows, carried, coupling.victim);
    let aggressor = wire(rows, carried, coupling.aggressor);
    rule.sees(rows.schedule, &victim, &aggressor)
}

// Puts the coupling of a place to the rule if its flag is clear. If the rule sees it, its flag is set and it acts from now
// on. Answers how many flags are set anew.
fn flag_if_seen<R: CouplingRule, const N: usize>(
    rows: &Rows<'_>,
    carried: &mut Carried<'_, N>,
    rule: &R,
    coupling: &Coupling,
    flags: &mut [Flag],
    place: usize,
) -> usize
    requires { place < length flags.old }
    ensures flagged { FlaggedOne (seen_in rows.now.schedule.now rows.now.nodes.now (window_in carried.old) (R.meaning rule.now) coupling.now) place flags.old flags.new result }
    ensures acted { Acted (place + 1) carried.old carried.new flags.old flags.new result }
{
    if flags[place] == Flag::Set || !sees(rows, carried, rule, coupling) {
        return 0;
    }
    flags[place] = Flag::Set;
    carried.act(place);
    1
}

// Puts each coupling whose flag is clear to the rule, with the windows of its two nodes. If the rule sees it, its flag is
// set and it acts from now on; that changes no window before the next round. Answers how many flags are set anew.
pub(crate) fn flag_seen<R: CouplingRule, const N: usize>(
    rows: &Rows<'_>,
    carried: &mut Carried<'_, N>,
    rule: &R,
    flags: &mut [Flag],
) -> usize
    requires { length rows.now.couplings.now ≤ length flags.old }
    ensures flagged { FlaggedSeen (seen_in rows.now.schedule.now rows.now.nodes.now (window_in carried.old) (R.meaning rule.now)) rows.now.couplings.now flags.old flags.new result }
    ensures acted { Acted (length rows.now.couplings.now) carried.old carried.new flags.old flags.new result }
{
    let mut fresh = 0;
    for (k, coupling) in rows.couplings.iter().enumerate() {
        fresh += flag_if_seen(rows, carried, rule, coupling, flags, k);
    }
    fresh
}
