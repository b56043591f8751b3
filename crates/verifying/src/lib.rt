// Judging a sealed table under a coupling rule.
#![tactic(auto)]

mod asking;
mod verdicts;
pub mod verify;
