// A clock schedule: its period, its proximity, and the start and the open width of each of its phases.
#![tactic(auto)]

use std::marker::Model;

mod build;
pub mod figures;
mod shift;
#[cfg(test)]
mod tests;

// A lawful clock of `count` phases, in plain arrays of a fixed size, so that a record of it can be lent and copied
// without a heap. The places past the last phase hold zeros, so that figures which differ only there make one schedule.
// The fields are those of `Figures`, which anybody may fill; a schedule has its own, private and always lawful.
#[derive(Clone, Copy)]
pub struct Schedule {
    period: u32,
    proximity: u32,
    count: u8,
    starts: [u32; 16],
    widths: [u32; 16],
}

// Contracts see a schedule as the clock that it is.
impl Model for Schedule {
    ghost use Rattle.schedule.specs.Clock.{Clock};
    ghost use Rattle.schedule.specs.Shown.{shown, stored, Kept};

    ghost Value = { Clock };

    ghost view = { shown };

    ghost inverse = { stored };

    ghost invariant = { Kept };
}
