// Both kinds of delay at once, so that one visit to a connection serves both.
ghost use Rattle.kinds.specs.Both.{both_kind, both_start, both_between, both_can_climb, both_restarts};
ghost use Rattle.kinds.specs.Laws.{both_lawful, both_stays, both_rests, both_climbs_one, both_restart_climbs, both_endless_climbs_less};

use super::DelayKind;
use super::arrival::Arrival;
use super::early::Earliest;
use super::late::Latest;
use super::timings::{Delays, Start};

// The latest and the earliest arrival at a node.
#[derive(Clone, Copy, PartialEq, Eq, Debug)]
pub struct Arrivals {
    pub latest: Arrival,
    pub earliest: Arrival,
}

// What a step adds to the latest and to the earliest.
#[derive(Clone, Copy, PartialEq, Eq, Debug)]
pub struct Gains {
    pub latest: i64,
    pub earliest: i64,
}

// The latest and the earliest arrivals, each as its own kind has it. The earliest of a latch never climbs.
pub struct Both;

impl DelayKind for Both {
    type Figure = Arrivals;

    type Step = Gains;

    const FIGURES: u8 = 1;

    ghost FIGURES = { 1 };

    ghost kind = { both_kind };

    ghost starts_with = { both_start };

    ghost between = { both_between };

    ghost restarts = { both_restarts };

    ghost can_climb = { both_can_climb };

    ghost laws = { both_lawful };

    ghost restart_stays = { both_stays };

    ghost restart_rests = { both_rests };

    ghost climbs_at_most = { both_climbs_one };

    ghost restart_climbs = { both_restart_climbs };

    ghost without_end_climbs = { both_endless_climbs_less };

    fn no_path() -> Arrivals {
        Arrivals {
            latest: Latest::no_path(),
            earliest: Earliest::no_path(),
        }
    }

    fn join(one: Arrivals, other: Arrivals) -> Arrivals {
        Arrivals {
            latest: Latest::join(one.latest, other.latest),
            earliest: Earliest::join(one.earliest, other.earliest),
        }
    }

    fn step(figure: Arrivals, gains: Gains) -> Arrivals {
        Arrivals {
            latest: Latest::step(figure.latest, gains.latest),
            earliest: Earliest::step(figure.earliest, gains.earliest),
        }
    }

    fn start(start: Start) -> Arrivals {
        Arrivals {
            latest: Latest::start(start),
            earliest: Earliest::start(start),
        }
    }

    fn between(from: Delays, to: Delays, shift: i64) -> Gains {
        Gains {
            latest: Latest::between(from, to, shift),
            earliest: Earliest::between(from, to, shift),
        }
    }

    fn restart(start: Arrivals, arrival: Arrivals) -> Arrivals {
        Arrivals {
            latest: Latest::restart(start.latest, arrival.latest),
            earliest: Earliest::restart(start.earliest, arrival.earliest),
        }
    }

    fn climbs(start: Arrivals, arrival: Arrivals) -> bool {
        Latest::climbs(start.latest, arrival.latest)
    }

    fn without_end(start: Arrivals, arrival: Arrivals) -> Arrivals {
        Arrivals {
            latest: Latest::without_end(start.latest, arrival.latest),
            earliest: Earliest::without_end(start.earliest, arrival.earliest),
        }
    }

    fn same(one: Arrivals, other: Arrivals) -> bool {
        Latest::same(one.latest, other.latest) && Earliest::same(one.earliest, other.earliest)
    }
}
