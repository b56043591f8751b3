// The earliest kind of delay.
ghost use Rattle.kinds.specs.Arrivals.{earliest_kind, earliest_start, earliest_between, can_climb, earliest_restarts};
ghost use Rattle.std.proofs.Common.{rules};
ghost use Rattle.kinds.specs.Laws.{climbs_one, earliest_lawful};

use super::DelayKind;
use super::arrival::Arrival;
use super::sums::difference;
use super::timings::{Delays, Start};

// The earliest arrivals: of the figures that come together the least, and each latch starts from its opening edge.
pub struct Earliest;

impl DelayKind for Earliest {
    type Figure = Arrival;

    type Step = i64;

    const FIGURES: u8 = 1;

    ghost FIGURES = { 1 };

    ghost kind = { earliest_kind };

    ghost starts_with = { earliest_start };

    ghost between = { earliest_between };

    ghost restarts = { earliest_restarts };

    ghost can_climb = { can_climb };

    ghost laws = { earliest_lawful };

    ghost restart_stays = { Prim.search rules };

    ghost restart_rests = { Prim.search rules };

    ghost climbs_at_most = { climbs_one };

    ghost restart_climbs = { Prim.search rules };

    ghost without_end_climbs = { Prim.search rules };

    fn no_path() -> Arrival {
        Arrival::NoPath
    }

    // As that of the latest kind, but for the pick: of a closure a contract can only say what a call of it gives.
    fn join(one: Arrival, other: Arrival) -> Arrival {
        match (one, other) {
            (Arrival::NoPath, arrival) | (arrival, Arrival::NoPath) => arrival,
            (Arrival::At(x), Arrival::At(y)) => Arrival::At(x.min(y)),
            _ => Arrival::NoEnd,
        }
    }

    fn step(figure: Arrival, gain: i64) -> Arrival {
        figure.after(gain)
    }

    fn start(start: Start) -> Arrival {
        Arrival::At(start.earliest)
    }

    fn between(from: Delays, _to: Delays, shift: i64) -> i64 {
        difference(from.least, shift)
    }

    fn restart(start: Arrival, _arrival: Arrival) -> Arrival {
        start
    }

    fn climbs(_start: Arrival, _arrival: Arrival) -> bool {
        false
    }

    fn without_end(start: Arrival, _arrival: Arrival) -> Arrival {
        start
    }

    fn same(one: Arrival, other: Arrival) -> bool {
        one == other
    }
}
