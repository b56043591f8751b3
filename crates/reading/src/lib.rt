// What a line of a text says: its frame, and what the frame lists.
#![tactic(auto)]

pub mod line;
pub mod listed;
