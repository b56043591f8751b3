// What the call for windows answers.

// A latch that is late or early, and by how much.
#[derive(Clone, Copy, PartialEq, Eq, Debug)]
pub struct Breach {
    pub latch: u16,
    pub excess: i64,
}

// Every window has an end, with the lowest latch that is late and the lowest that is early, where there are such; or the
// lowest latch whose window has no end.
#[derive(Clone, Copy, PartialEq, Eq, Debug)]
pub enum Checked {
    Ended {
        late: Option<Breach>,
        early: Option<Breach>,
    },
    NoEnd {
        latch: u16,
    },
}
