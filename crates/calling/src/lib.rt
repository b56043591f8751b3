// All calls on a book as data, that which judges it among them, and whole lists of them.
#![tactic(auto)]

pub mod apply;
pub mod request;
pub mod run;
