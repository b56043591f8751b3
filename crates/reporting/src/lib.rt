// A judgement printed: the lines of its verdict, its windows and its flags.
#![tactic(auto)]

pub mod lines;
pub mod report;
