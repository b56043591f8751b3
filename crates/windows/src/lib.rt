// When each node of a design may switch under a set of couplings.
#![tactic(auto)]

mod blocks;
mod breaches;
pub mod calls;
pub mod carried;
mod carrying;
pub mod checked;
mod circuit;
mod column;
mod connections;
pub mod edges;
mod effective;
mod find;
pub mod flags;
pub mod found;
mod in_place;
mod rounds;
pub mod rows;
mod settle;
mod sweep;
mod write;
