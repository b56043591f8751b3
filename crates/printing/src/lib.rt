// What is printed for whole texts, a judgement of a text, and a text rebuilt, into buffers that the caller lends. Tables
// and all else that a call works on lie on its stack.
#![tactic(auto)]

pub mod judge;
pub mod output;
mod overwriting;
pub mod rebuild;
mod replies;
pub mod room;
