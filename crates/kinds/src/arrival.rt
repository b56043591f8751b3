// What is known of a node's paths, as both kinds of delay keep it.

use super::sums::sum;

// `NoPath` is the mark of a node that no path comes to. `NoEnd` says that the figures of its paths grow past every number.
#[derive(Clone, Copy, PartialEq, Eq, Debug)]
pub enum Arrival {
    NoPath,
    At(i64),
    NoEnd,
}

impl Arrival {
    ghost use Rattle.std.specs.Prelude.{◌≡◌};
    ghost use Rattle.kinds.specs.Arrivals.{stepped, is_later};

    // The arrival after a step that adds `gain`. A sum that would leave 64 bits stays at their end, so that no figure
    // in rows that somebody else wrote wraps; no figure of a table that a book granted comes near.
    pub fn after(self, gain: i64) -> Arrival
        ensures { result ≡ stepped self gain }
    {
        match self {
            Arrival::At(figure) => Arrival::At(sum(figure, gain)),
            _ => self,
        }
    }

    // Whether this arrival is later than what a latch started from.
    pub fn is_later_than(self, start: Arrival) -> bool
        ensures { result ≡ is_later start self }
    {
        match (start, self) {
            (Arrival::At(here), Arrival::At(there)) => here < there,
            (_, Arrival::NoPath) | (Arrival::NoEnd, _) => false,
            _ => true,
        }
    }
}
