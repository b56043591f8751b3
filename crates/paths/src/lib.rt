// Paths in networks of nodes that latches part: at which nodes the figures of paths have no end, and how figures grow.
// Each function here stands for the theorem that its contract names.
#![tactic(auto)]

ghost use Rattle.std.specs.Prelude.{◌≡◌};
ghost use Rattle.paths.specs.Theorems.{Overtaken, Spreads, Grows};

pub mod theorem;

use theorem::Theorem;

// Where a path to a node is above all those that enter no more latches than there are, the figures of the paths to this
// node have no end.
pub fn overtaken() -> Theorem
    ensures theorem { Overtaken }
    ensures value { result ≡ Theorem.Overtaken }
{
    Theorem::Overtaken
}

// A node that is connected from one without an end has none.
pub fn spreads() -> Theorem
    ensures theorem { Spreads }
    ensures value { result ≡ Theorem.Spreads }
{
    Theorem::Spreads
}

// Where nothing starts later and no connection gains more, no path has a greater figure.
pub fn grows() -> Theorem
    ensures theorem { Grows }
    ensures value { result ≡ Theorem.Grows }
{
    Theorem::Grows
}
