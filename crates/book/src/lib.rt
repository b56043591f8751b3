// A book in whichever state, and calls on it as data.
#![tactic(auto)]

use states::{Draft, Sealed};

mod apply;

// A book before it is opened, while it is filled, and when it is sealed.
#[derive(Drop)]
pub enum Book {
    Unopened,
    Draft(Draft),
    Sealed(Sealed),
}
