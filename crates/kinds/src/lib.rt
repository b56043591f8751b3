// Kinds of delay: what one sweep can carry through a design.
#![tactic(auto)]

ghost use Rattle.std.specs.Prelude.{◌≡◌, ℕ, ◌<◌, ◌≤◌, ◌↔◌, true, false, ℤ};
ghost use Rattle.paths.specs.Kinds.{Kind, Lawful, Restarts};
ghost use Rattle.paths.specs.Sweeps.{FindsShortPaths};
ghost use Rattle.kinds.specs.declared.timings.Start.{Start};
ghost use Rattle.kinds.specs.declared.timings.Delays.{Delays};

pub mod arrival;
pub mod both;
pub mod early;
pub mod late;
mod sums;
pub mod timings;

use timings::{Delays, Start};

// A kind of delay. It brings its own figures, the mark of a node without a path, the join of figures that come together
// and the step from one node to another.
pub trait DelayKind {
    type Figure: Copy;

    type Step: Copy;

    // How many figures an arrival holds that can climb each by itself.
    const FIGURES: u8;

    ghost FIGURES: { ℕ };

    ghost kind: { Kind Self.Figure Self.Step };

    ghost starts_with: { Start → Self.Figure };

    ghost between: { Delays → Delays → ℤ → Self.Step };

    ghost restarts: { Restarts Self.Figure };

    // how many of its figures can climb still
    ghost can_climb: { Self.Figure → ℕ };

    // The mark of a node without a path.
    fn no_path() -> Self::Figure
        ensures { result ≡ kind.no_path };

    // What comes of two figures that come together.
    fn join(one: Self::Figure, other: Self::Figure) -> Self::Figure
        ensures { result ≡ kind.join one other };

    // What a step makes of a figure.
    fn step(figure: Self::Figure, step: Self::Step) -> Self::Figure
        ensures { result ≡ kind.step figure step };

    // The figure of a path that has only started.
    fn start(start: Start) -> Self::Figure
        ensures { result ≡ starts_with start };

    // The step along a connection, made from the delays at both of its ends and its shift.
    fn between(from: Delays, to: Delays, shift: i64) -> Self::Step
        ensures { result ≡ between from to shift };

    // What a latch starts from in the next sweep, of what it starts from in this one and what came to it.
    fn restart(start: Self::Figure, arrival: Self::Figure) -> Self::Figure
        ensures { result ≡ restarts.restart start arrival };

    // Whether that is more than what it starts from in this one.
    fn climbs(start: Self::Figure, arrival: Self::Figure) -> bool
        ensures { result ≡ restarts.climbs start arrival };

    // What a latch starts from where whatever still climbs has no end.
    fn without_end(start: Self::Figure, arrival: Self::Figure) -> Self::Figure
        ensures { result ≡ restarts.without_end start arrival };

    // Whether two figures are the same.
    fn same(one: Self::Figure, other: Self::Figure) -> bool
        ensures { result ≡ true ↔ one ≡ other };

    // a join ignores the mark, and the others of its laws
    ghost laws: { Lawful kind };

    // a latch that does not climb starts as before
    ghost restart_stays: { (start arrival : Self.Figure) → restarts.climbs start arrival ≡ false → restarts.restart start arrival ≡ start };

    // what came to a latch does not climb over what the latch restarted from
    ghost restart_rests: { (start arrival : Self.Figure) → restarts.climbs start arrival ≡ true → restarts.climbs (restarts.restart start arrival) arrival ≡ false };

    // no more figures can climb than an arrival holds
    ghost climbs_at_most: { (figure : Self.Figure) → can_climb figure ≤ FIGURES };

    // a latch that starts later can climb no more than before
    ghost restart_climbs: { (start arrival : Self.Figure) → can_climb (restarts.restart start arrival) ≤ can_climb start };

    // what has no end climbs no more
    ghost without_end_climbs: { (start arrival : Self.Figure) → restarts.climbs start arrival ≡ true → can_climb (restarts.without_end start arrival) < can_climb start };
}

// What one sweep of any kind finds, proved once from the laws: the figure at a node absorbs that of every short path that
// arrives there, and is the join of some of them.
pub fn sweeps_find_short_paths<K: DelayKind>() -> bool
    ensures theorem { FindsShortPaths K.kind }
    ensures value { result ≡ true }
{
    true
}
