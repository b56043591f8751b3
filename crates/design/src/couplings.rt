// The rows of a coupling table.

// The aggressor, where it switches near the victim in time, makes the victim switch earlier by up to the assisting
// amount or later by up to the opposing amount.
#[derive(Clone, Copy)]
pub struct Coupling {
    pub victim: u16,
    pub aggressor: u16,
    pub assisting: u32,
    pub opposing: u32,
}

impl Coupling {
    // A row that couples nothing, to fill a new table with.
    pub const NONE: Coupling = Coupling {
        victim: 0,
        aggressor: 0,
        assisting: 0,
        opposing: 0,
    };
}

// It couples nothing: both amounts are 0.
const _: () = prove!(Coupling::NONE.assisting == 0 && Coupling::NONE.opposing == 0);
