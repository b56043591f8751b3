// Sets of flags that are closed, and the rounds that find the least of them, over every monotone system that tells by
// yes and no what is bounded and what is seen. Each function here stands for the theorem that its contract names.
#![tactic(auto)]

ghost use Rattle.std.specs.Prelude.{◌≡◌};
ghost use Rattle.closing.specs.Theorems.{RoundsClose, RoundsUnique, RoundsMean, FromNothing};

pub mod theorem;

use theorem::Theorem;

// From a set within every closed set there are rounds; they are few, and their outcome is right.
pub fn rounds_close() -> Theorem
    ensures theorem { RoundsClose }
    ensures value { result ≡ Theorem.RoundsClose }
{
    Theorem::RoundsClose
}

// Rounds from the same set are equally many, with the same outcome for the flags that there are.
pub fn rounds_unique() -> Theorem
    ensures theorem { RoundsUnique }
    ensures value { result ≡ Theorem.RoundsUnique }
{
    Theorem::RoundsUnique
}

// Whatever rounds were made from a set within every closed set: they are few, and their outcome is right.
pub fn rounds_mean() -> Theorem
    ensures theorem { RoundsMean }
    ensures value { result ≡ Theorem.RoundsMean }
{
    Theorem::RoundsMean
}

// Rounds that start without flags can be made, are few, and their outcome is right.
pub fn from_nothing() -> Theorem
    ensures theorem { FromNothing }
    ensures value { result ≡ Theorem.FromNothing }
{
    Theorem::FromNothing
}
