// What a caller lends to each call of a book.

use super::couplings::Coupling;
use super::nodes::Node;
use schedule::Schedule;

// The one schedule record and the two tables, which stay the caller's own.
#[derive(Drop)]
pub struct Tables<'a> {
    pub schedule: &'a mut Schedule,
    pub nodes: &'a mut [Node],
    pub couplings: &'a mut [Coupling],
}
