// The rows of a flag table.

// Whether a coupling is in a set of couplings.
#[derive(Clone, Copy, PartialEq, Eq, Debug)]
pub enum Flag {
    Clear,
    Set,
}
