// What the kind of a row tells of it.
ghost use Rattle.std.specs.Prelude.{◌≡◌};
ghost use Rattle.design.specs.Rows.{is_node, is_latch, is_victim, is_unfed, phase_of, least_delay, fed_by};

use super::nodes::Node;

impl Node {
    // Whether the row holds a node.
    pub fn is_node(&self) -> bool
        ensures { result ≡ is_node self.now }
    {
        !matches!(self, Node::Free)
    }

    pub fn is_latch(&self) -> bool
        ensures { result ≡ is_latch self.now }
    {
        matches!(self, Node::Latch { .. })
    }

    // Whether a coupling can disturb it: it has delays of its own.
    pub fn is_victim(&self) -> bool
        ensures { result ≡ is_victim self.now }
    {
        matches!(self, Node::Gate { .. } | Node::Latch { .. })
    }

    // Whether it is a latch without a source.
    pub fn is_unfed(&self) -> bool
        ensures { result ≡ is_unfed self.now }
    {
        matches!(self, Node::Latch { source: None, .. })
    }

    // The phase of a row: 0 for a free row, which has none.
    pub fn phase(&self) -> u8
        ensures { result ≡ phase_of self.now }
    {
        match *self {
            Node::Free => 0,
            Node::Input { phase, .. } | Node::Gate { phase, .. } | Node::Latch { phase, .. } => {
                phase
            }
        }
    }

    // The least delay of a row: 0 for an input or a free row, which have none.
    pub fn least_delay(&self) -> u32
        ensures { result ≡ least_delay self.now }
    {
        match *self {
            Node::Gate { least, .. } | Node::Latch { least, .. } => least,
            _ => 0,
        }
    }

    // Gives a latch its source, in place of an earlier one; any other row stays as it is.
    pub fn feed(&mut self, from: u16)
        ensures { self.new ≡ fed_by from self.old }
    {
        if let Node::Latch { source, .. } = self {
            *source = Some(from);
        }
    }
}
