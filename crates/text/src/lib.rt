// A text of lines, one frame a line, and the digits of a line.
#![tactic(auto)]

pub mod digits;
pub mod lines;
pub mod spelling;
