// Calls on a book as data, what they answer, and what is lent to them.
use design::calls::{Answer, Call};
use judging::verdict::Judgement;
use kinds::arrival::Arrival;
use timing::windows::Window;
use windows::flags::Flag;

// A call on a book: one that makes or changes its table, or one that judges it under a rule.
#[derive(Clone, Copy)]
pub enum Request<'a, R> {
    Change(Call<'a>),
    Verify(R),
}

// What a granted call answers.
#[derive(Clone, Copy)]
pub enum Reply {
    Changed(Answer),
    Judged(Judgement),
}

// What is lent to a call for verdicts, beside the tables of the book: a flag for each coupling, a window for each node,
// and a column to work in.
#[derive(Drop)]
pub struct Results<'a> {
    pub flags: &'a mut [Flag],
    pub windows: &'a mut [Window],
    pub column: &'a mut [Arrival],
}

// A call of a list of calls, and how many rows of each table are lent to it; of a table that has fewer, all.
#[derive(Clone, Copy)]
pub struct LentRequest<'a, R> {
    pub nodes: usize,
    pub couplings: usize,
    pub flags: usize,
    pub windows: usize,
    pub column: usize,
    pub request: Request<'a, R>,
}
