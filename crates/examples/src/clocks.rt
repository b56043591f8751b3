// The clock of the examples.
use schedule::figures::Figures;

// Two phases that start at 0 and 50 in a period of 100, open for 40.
pub(crate) fn two_phases() -> Figures {
    let mut starts = [0; 16];
    starts[1] = 50;
    Figures {
        period: 100,
        proximity: 0,
        count: 2,
        starts,
        widths: [40; 16],
    }
}

// The same with one phase.
pub(crate) fn one_phase() -> Figures {
    Figures {
        period: 100,
        proximity: 0,
        count: 1,
        starts: [0; 16],
        widths: [40; 16],
    }
}
