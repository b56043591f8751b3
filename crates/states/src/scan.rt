// The questions that the tests ask of rows and tables.
ghost use Rattle.std.specs.Prelude.{◌≡◌, ◌≤◌, length, take};
ghost use Rattle.design.specs.Tests.{other_in, over_in, any_unfed};
ghost use Rattle.states.specs.Roles.{allows, any_other_in, Unpaired};

use super::counts::Counts;
use design::couplings::Coupling;
use design::nodes::Node;
use refusals::Refusal;

// What a call wants of a node. An enum and no closure: of a closure a contract can only say what a call of it gives.
#[derive(Clone, Copy)]
pub(crate) enum Role {
    Any,
    Latch,
    Victim,
}

impl Role {
    fn allows(self, node: &Node) -> bool
        ensures { result ≡ allows self node.now }
    {
        match self {
            Role::Any => node.is_node(),
            Role::Latch => node.is_latch(),
            Role::Victim => node.is_victim(),
        }
    }
}

impl Counts {
    // Whether no granted node has this number, or its row, where the table has it, is not of the kind wanted.
    pub(crate) fn is_other(self, role: Role, nodes: &[Node], number: u16) -> bool
        ensures { result ≡ other_in (allows role) self.nodes nodes.now number }
    {
        let k = usize::from(number);
        k >= self.nodes || nodes.get(k).is_some_and(|node| !role.allows(node))
    }

    pub(crate) fn any_other(self, role: Role, nodes: &[Node], numbers: &[u16]) -> bool
        ensures { result ≡ any_other_in (allows role) self.nodes nodes.now numbers.now }
    {
        numbers
            .iter()
            .any(|number| self.is_other(role, nodes, *number))
    }
}

// The granted rows that a table has.
pub(crate) fn granted<T>(rows: &[T], count: usize) -> &[T]
    ensures { result.now ≡ take count rows.now }
{
    rows.get(..count).unwrap_or(rows)
}

pub(crate) fn any_unfed(nodes: &[Node]) -> bool
    ensures { result ≡ any_unfed nodes.now }
{
    nodes.iter().any(|node| node.is_unfed())
}

// The test of a pair: refused where the victim is its own aggressor, or has the aggressor already. Passed, it answers the
// sum of the assisting amounts that the victim has, so that one pass over the couplings serves this test and the next.
pub(crate) fn check_pair(
    couplings: &[Coupling],
    victim: u16,
    aggressor: u16,
) -> Result<u64, Refusal>
    requires { length couplings.now ≤ 1024 }
    ensures { Unpaired couplings.now victim aggressor result }
{
    if victim == aggressor {
        return Err(Refusal::Pair);
    }
    let mut sum = 0;
    for coupling in couplings {
        if coupling.victim == victim {
            if coupling.aggressor == aggressor {
                return Err(Refusal::Pair);
            }
            sum += u64::from(coupling.assisting);
        }
    }
    Ok(sum)
}

// Whether an amount exceeds the least delay of a node whose row the table has.
pub(crate) fn exceeds(nodes: &[Node], number: u16, amount: u64) -> bool
    ensures { result ≡ over_in nodes.now number amount }
{
    nodes
        .get(usize::from(number))
        .is_some_and(|node| u64::from(node.least_delay()) < amount)
}
