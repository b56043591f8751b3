// How many rows of its tables a book has granted, and how many it takes.
ghost use Rattle.std.specs.Prelude.{◌≤◌};

use design::couplings::Coupling;
use design::nodes::Node;
use refusals::Refusal;

pub const MOST_NODES: usize = 4096;

pub const MOST_COUPLINGS: usize = 1024;

// The rows numbered below a count are granted; a book takes no more of them than it has room for.
#[derive(Clone, Copy)]
pub struct Counts {
    pub nodes: usize,
    pub couplings: usize,
    pub node_room: usize,
    pub coupling_room: usize,
    ghost nodes_fit: { nodes ≤ node_room },
    ghost couplings_fit: { couplings ≤ coupling_room },
    ghost few_nodes: { node_room ≤ 4096 },
    ghost few_couplings: { coupling_room ≤ 1024 },
}

impl Counts {
    ghost use Rattle.std.specs.Prelude.{◌≡◌};
    ghost use Rattle.states.specs.Counting.{too_few, OneNodeMore, OneCouplingMore};

    // The counts with one node more; refused where as many are granted as the book takes. Couplings have a method of their
    // own, since they are counted in fields of their own.
    pub(crate) fn with_node(mut self) -> Result<Counts, Refusal>
        ensures { OneNodeMore self result }
    {
        if self.nodes == self.node_room {
            return Err(Refusal::Full);
        }
        self.nodes += 1;
        Ok(self)
    }

    // The counts with one coupling more; refused where as many are granted as the book takes.
    pub(crate) fn with_coupling(mut self) -> Result<Counts, Refusal>
        ensures { OneCouplingMore self result }
    {
        if self.couplings == self.coupling_room {
            return Err(Refusal::Full);
        }
        self.couplings += 1;
        Ok(self)
    }

    // Whether a lent table has fewer rows than are counted.
    pub(crate) fn is_short(self, nodes: &[Node], couplings: &[Coupling]) -> bool
        ensures { result ≡ too_few self nodes.now couplings.now }
    {
        nodes.len() < self.nodes || couplings.len() < self.couplings
    }
}
