// Lines and whole texts put to a book.
#![tactic(auto)]

mod calls;
pub mod line;
pub mod load;
