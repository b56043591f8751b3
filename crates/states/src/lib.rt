// A book whose state is a type: a draft takes rows, feeds and couplings, a sealed table takes none.
#![tactic(auto, using(crate::proofs::Seen::table))]

use counts::Counts;
use refusals::Refusal;
use stages::{Editable, Frozen};
use std::marker::PhantomData;

mod counted;
pub mod counts;
mod couple;
mod figures;
mod opening;
mod reopen;
mod retime;
mod rows;
mod scan;
mod seal;
pub mod stages;

// An open book at a stage. Its calls are lent schedule and tables apart, each for writing only if the call writes it, so
// that a caller whose tables are shared can still seal or retime.
#[derive(Drop)]
pub struct OpenBook<S> {
    counts: Counts,
    stage: PhantomData<S>,
}

// A book that takes rows, feeds and couplings.
pub type Draft = OpenBook<Editable>;

// A book whose latches were all fed when it was sealed, and which takes no row, feed or coupling.
pub type Sealed = OpenBook<Frozen>;

// What a refused seal or reopening hands back: the book as it was, and why.
#[derive(Drop)]
pub struct Refused<B> {
    pub book: B,
    pub refusal: Refusal,
}
