// The theorems that functions of this crate stand for.

// Which theorem the contract of a function states: the function answers with its name.
#[derive(Clone, Copy, PartialEq, Eq, Debug)]
pub enum Theorem {
    DesignsStand,
    WorkedExamples,
    ClosedSetsOfK,
}
