// The rows of a design table, and the calls that enter and change them, as data.
#![tactic(auto)]

pub mod calls;
pub mod couplings;
mod kinds;
pub mod nodes;
mod sources;
pub mod tables;
