// The latest kind of delay.
ghost use Rattle.kinds.specs.Arrivals.{latest_kind, latest_start, latest_between, can_climb, latest_restarts};
ghost use Rattle.kinds.specs.Laws.{stays_unless_later, rests_restarted, climbs_one, latest_lawful, restart_climbs, endless_climbs_less};

use super::DelayKind;
use super::arrival::Arrival;
use super::sums::difference;
use super::timings::{Delays, Start};

// The latest arrivals: of the figures that come together the greatest, and each latch passes on what came to it after its
// opening edge.
pub struct Latest;

impl DelayKind for Latest {
    type Figure = Arrival;

    type Step = i64;

    const FIGURES: u8 = 1;

    ghost FIGURES = { 1 };

    ghost kind = { latest_kind };

    ghost starts_with = { latest_start };

    ghost between = { latest_between };

    ghost restarts = { latest_restarts };

    ghost can_climb = { can_climb };

    ghost laws = { latest_lawful };

    ghost restart_stays = { stays_unless_later };

    ghost restart_rests = { rests_restarted };

    ghost climbs_at_most = { climbs_one };

    ghost restart_climbs = { restart_climbs };

    ghost without_end_climbs = { endless_climbs_less };

    fn no_path() -> Arrival {
        Arrival::NoPath
    }

    fn join(one: Arrival, other: Arrival) -> Arrival {
        match (one, other) {
            (Arrival::NoPath, arrival) | (arrival, Arrival::NoPath) => arrival,
            (Arrival::At(x), Arrival::At(y)) => Arrival::At(x.max(y)),
            _ => Arrival::NoEnd,
        }
    }

    fn step(figure: Arrival, gain: i64) -> Arrival {
        figure.after(gain)
    }

    fn start(start: Start) -> Arrival {
        Arrival::At(start.latest)
    }

    fn between(from: Delays, _to: Delays, shift: i64) -> i64 {
        difference(from.greatest, shift)
    }

    fn restart(start: Arrival, arrival: Arrival) -> Arrival {
        Latest::join(start, arrival)
    }

    fn climbs(start: Arrival, arrival: Arrival) -> bool {
        arrival.is_later_than(start)
    }

    fn without_end(start: Arrival, arrival: Arrival) -> Arrival {
        if arrival.is_later_than(start) {
            Arrival::NoEnd
        } else {
            start
        }
    }

    fn same(one: Arrival, other: Arrival) -> bool {
        one == other
    }
}
