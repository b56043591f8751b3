// Nodes in blocks, so that a sweep can pass over the blocks in which nothing can have changed.
ghost use Rattle.std.specs.Prelude.{◌≡◌, ℕ, ◌<◌, ◌≤◌, ◌⊎◌, not, ◌&&◌, ◌||◌, ◌==◌, true, false};
ghost use Rattle.timing.specs.Connections.{network};
ghost use Rattle.windows.specs.Blocks.{block_of, has_block, led_from, IsNext, AllLeads};

use super::connections::sources;
use design::nodes::Node;

// Nodes in a block, and blocks: so many hold as many nodes as a book takes.
pub(crate) const BLOCK: usize = 16;

pub(crate) const BLOCKS: usize = 256;

// A set of blocks.
#[derive(Clone, Copy)]
pub(crate) struct Blocks {
    members: [bool; 256],
}

impl Blocks {
    pub(crate) fn none() -> Blocks
        ensures { (b : ℕ) → has_block result b ≡ false }
    {
        Blocks {
            members: [false; 256],
        }
    }

    pub(crate) fn all() -> Blocks
        ensures { (b : ℕ) → b < 256 → has_block result b ≡ true }
    {
        Blocks {
            members: [true; 256],
        }
    }

    // The first block of the set from one on and below another.
    pub(crate) fn next(&self, from: usize, to: usize) -> Option<usize>
        requires { to ≤ 256 }
        ensures { IsNext self.now from to result }
    {
        for block in from..to {
            if self.members[block] {
                return Some(block);
            }
        }
        None
    }

    pub(crate) fn add(&mut self, block: usize)
        requires { block < 256 }
        ensures { (b : ℕ) → has_block self.new b ≡ ((b == block) || has_block self.old b) }
    {
        self.members[block] = true;
    }

    pub(crate) fn remove(&mut self, block: usize)
        requires { block < 256 }
        ensures { (b : ℕ) → has_block self.new b ≡ (not (b == block) && has_block self.old b) }
    {
        self.members[block] = false;
    }

    // Adds a block if it is led to. It is written whether it is or not, so that this takes no branch.
    fn mark(&mut self, block: usize, led: bool)
        requires { block < 256 }
        ensures added { led ≡ true → (b : ℕ) → has_block self.new b ≡ ((b == block) || has_block self.old b) }
        ensures kept { led ≡ false → (b : ℕ) → has_block self.new b ≡ has_block self.old b }
    {
        self.members[block] = self.members[block] | led;
    }

    // Each member is written, whatever it is, so that many are joined at a time.
    fn join(&mut self, other: &Blocks)
        ensures { (b : ℕ) → has_block self.new b ≡ (has_block self.old b || has_block other.now b) }
    {
        for block in 0..BLOCKS {
            self.members[block] = self.members[block] | other.members[block];
        }
    }
}

// Which blocks lead to which: those of the sources of nodes to those of the nodes. A block leads to itself only if a source
// in it does not stand before its node, since blocks are gone through in order.
#[derive(Drop)]
pub(crate) struct Leads {
    to: [Blocks; 256],
}

impl Leads {
    // The block of one node leads to that of another, unless this stands behind it in the same block.
    fn add(&mut self, from: usize, to: usize)
        ensures marked { from < 4096 → to < 4096 → ((block_of from ≡ block_of to) × (from < to)) ⊎ (has_block (led_from self.new (block_of from)) (block_of to) ≡ true) }
        ensures kept { (a b : ℕ) → has_block (led_from self.old a) b ≡ true → has_block (led_from self.new a) b ≡ true }
    {
        let source = from / BLOCK;
        let target = to / BLOCK;
        if source < BLOCKS && target < BLOCKS {
            self.to[source].mark(target, source != target || to <= from);
        }
    }

    // Of all connections between these nodes.
    pub(crate) fn of(nodes: &[Node]) -> Leads
        ensures { AllLeads (network nodes.now) result }
    {
        let mut leads = Leads {
            to: [Blocks::none(); 256],
        };
        for (v, node) in nodes.iter().enumerate() {
            for source in sources(node) {
                leads.add(usize::from(*source), v);
            }
        }
        leads
    }

    // Adds the blocks that a block leads to.
    pub(crate) fn wake(&self, block: usize, stale: &mut Blocks)
        requires { block < 256 }
        ensures { (b : ℕ) → has_block stale.new b ≡ (has_block stale.old b || has_block (led_from self.now block) b) }
    {
        stale.join(&self.to[block]);
    }
}
