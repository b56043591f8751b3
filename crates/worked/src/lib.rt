// Worked examples of shifts, coupling rules and verdicts, proved of the definitions that the contracts use. Each function
// here stands for the theorem that its contract names.
#![tactic(auto)]

ghost use Rattle.std.specs.Prelude.{◌≡◌};
ghost use Rattle.worked.specs.Designs.{DesignsStand};
ghost use Rattle.worked.specs.Examples.{AllHold, examples};
ghost use Rattle.worked.specs.ClosedSets.{ClosedSetsOfK};

pub mod theorem;

use theorem::Theorem;

// The tables of the examples stand.
pub fn designs_stand() -> Theorem
    ensures theorem { DesignsStand }
    ensures value { result ≡ Theorem.DesignsStand }
{
    Theorem::DesignsStand
}

// Every worked example holds.
pub fn worked_examples() -> Theorem
    ensures theorem { AllHold examples }
    ensures value { result ≡ Theorem.WorkedExamples }
{
    Theorem::WorkedExamples
}

// What some of their judgements say of all sets of couplings.
pub fn closed_sets_of_k() -> Theorem
    ensures theorem { ClosedSetsOfK }
    ensures value { result ≡ Theorem.ClosedSetsOfK }
{
    Theorem::ClosedSetsOfK
}
