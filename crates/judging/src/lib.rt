// Verdicts on a design: closed sets of couplings, the rounds that find the least of them, and what is judged of the
// windows under it. Each function here stands for the theorem that its contract names, of tables that stand and lawful
// rules.
#![tactic(auto)]

ghost use Rattle.std.specs.Prelude.{◌≡◌};
ghost use Rattle.judging.specs.Theorems.{VerdictsAreRight, VerdictsAreOne, RoundsAreRight};

pub mod theorem;
pub mod verdict;

use theorem::Theorem;

// What a judgement of a table says of closed sets is right.
pub fn verdicts_are_right() -> Theorem
    ensures theorem { VerdictsAreRight }
    ensures value { result ≡ Theorem.VerdictsAreRight }
{
    Theorem::VerdictsAreRight
}

// A table has at most one judgement under a rule, with its flags, and its windows unless it is gain.
pub fn verdicts_are_one() -> Theorem
    ensures theorem { VerdictsAreOne }
    ensures value { result ≡ Theorem.VerdictsAreOne }
{
    Theorem::VerdictsAreOne
}

// Rounds from any set within every closed set are few, and their outcome is right.
pub fn rounds_are_right() -> Theorem
    ensures theorem { RoundsAreRight }
    ensures value { result ≡ Theorem.RoundsAreRight }
{
    Theorem::RoundsAreRight
}
