// The text of a table, from which it can be loaded again.
#![tactic(auto)]

mod lines;
pub mod write;
