// What sweeps find round rings of latches, when each latch passes on what came to it. Each function here stands for the
// theorem that its contract names.
#![tactic(auto)]

ghost use Rattle.std.specs.Prelude.{◌≡◌};
ghost use Rattle.rings.specs.Found.{LatestSettles, EarliestSettles};

pub mod theorem;

use theorem::Theorem;

// Sweeps of the latest kind settle on the greatest figures, and find which nodes have no end.
pub fn latest_settles() -> Theorem
    ensures theorem { LatestSettles }
    ensures value { result ≡ Theorem.LatestSettles }
{
    Theorem::LatestSettles
}

// Sweeps of the earliest kind settle on the least figures of short paths.
pub fn earliest_settles() -> Theorem
    ensures theorem { EarliestSettles }
    ensures value { result ≡ Theorem.EarliestSettles }
{
    Theorem::EarliestSettles
}
