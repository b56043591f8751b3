// A call put to a book in whichever state it is.
ghost use Rattle.std.specs.Prelude.{◌≡◌};
ghost use Rattle.design.specs.Table.{is_open, loan_in, SameTables};
ghost use Rattle.design.specs.Calls.{asked};
ghost use Rattle.design.specs.Effects.{Answered};
ghost use Rattle.states.specs.Views.{loan_of};
ghost use Rattle.book.specs.Views.{book_table, state_of, counts_of};

use super::Book;
use design::calls::{Answer, Call};
use design::couplings::Coupling;
use design::nodes::Node;
use design::tables::Tables;
use refusals::Refusal;
use schedule::Schedule;
use states::counts::Counts;
use states::{Draft, Sealed};

fn on_unopened(
    schedule: &mut Schedule,
    nodes: &[Node],
    couplings: &[Coupling],
    call: &Call<'_>,
) -> (Book, Result<Answer, Refusal>)
    ensures { Answered book_table Book.Unopened (loan_of schedule.old nodes.now couplings.now) (asked call.now) result.0 (loan_of schedule.new nodes.now couplings.now) result.1 }
{
    match call {
        Call::Open { figures } => match Draft::open(schedule, nodes, couplings, figures) {
            Ok(draft) => (Book::Draft(draft), Ok(Answer::Done)),
            Err(refusal) => (Book::Unopened, Err(refusal)),
        },
        _ => (Book::Unopened, Err(Refusal::Order)),
    }
}

fn on_draft(
    mut draft: Draft,
    schedule: &mut Schedule,
    nodes: &mut [Node],
    couplings: &mut [Coupling],
    call: &Call<'_>,
) -> (Book, Result<Answer, Refusal>)
    ensures { Answered book_table (Book.Draft draft) (loan_of schedule.old nodes.old couplings.old) (asked call.now) result.0 (loan_of schedule.new nodes.new couplings.new) result.1 }
{
    match *call {
        Call::Input(row) => {
            let answer = draft
                .input(schedule, nodes, couplings, row)
                .map(Answer::Node);
            (Book::Draft(draft), answer)
        }
        Call::Gate(row) => {
            let answer = draft
                .gate(schedule, nodes, couplings, row)
                .map(Answer::Node);
            (Book::Draft(draft), answer)
        }
        Call::Latch(row) => {
            let answer = draft
                .latch(schedule, nodes, couplings, row)
                .map(Answer::Node);
            (Book::Draft(draft), answer)
        }
        Call::Feed { latch, source } => {
            let answer = draft
                .feed(schedule, nodes, couplings, latch, source)
                .map(|()| Answer::Done);
            (Book::Draft(draft), answer)
        }
        Call::Couple(coupling) => {
            let answer = draft
                .couple(schedule, nodes, couplings, coupling)
                .map(Answer::Coupling);
            (Book::Draft(draft), answer)
        }
        Call::Seal => match draft.seal(schedule, nodes, couplings) {
            Ok(sealed) => (Book::Sealed(sealed), Ok(Answer::Done)),
            Err(back) => (Book::Draft(back.book), Err(back.refusal)),
        },
        Call::Retime { figures } => {
            let answer = draft
                .retime(schedule, nodes, couplings, &figures)
                .map(|()| Answer::Done);
            (Book::Draft(draft), answer)
        }
        _ => (Book::Draft(draft), Err(Refusal::Order)),
    }
}

fn on_sealed(
    sealed: Sealed,
    schedule: &mut Schedule,
    nodes: &[Node],
    couplings: &[Coupling],
    call: &Call<'_>,
) -> (Book, Result<Answer, Refusal>)
    ensures { Answered book_table (Book.Sealed sealed) (loan_of schedule.old nodes.now couplings.now) (asked call.now) result.0 (loan_of schedule.new nodes.now couplings.now) result.1 }
{
    match call {
        Call::Reopen => match sealed.reopen(schedule, nodes, couplings) {
            Ok(draft) => (Book::Draft(draft), Ok(Answer::Done)),
            Err(back) => (Book::Sealed(back.book), Err(back.refusal)),
        },
        Call::Retime { figures } => {
            let answer = sealed
                .retime(schedule, nodes, couplings, figures)
                .map(|()| Answer::Done);
            (Book::Sealed(sealed), answer)
        }
        _ => (Book::Sealed(sealed), Err(Refusal::Order)),
    }
}

impl Book {
    pub fn is_open(&self) -> bool
        ensures { result ≡ is_open (state_of self.now) }
    {
        !matches!(self, Book::Unopened)
    }

    // How many rows are granted, once the book is open.
    pub fn counts(&self) -> Option<Counts>
        ensures { result ≡ counts_of self.now }
    {
        match self {
            Book::Unopened => None,
            Book::Draft(draft) => Some(draft.counts()),
            Book::Sealed(sealed) => Some(sealed.counts()),
        }
    }

    // Makes a call; one that the state does not take is refused. The state is taken out of the book and put back, since
    // `seal` and `reopen` take it by value.
    pub fn apply(&mut self, tables: &mut Tables<'_>, call: &Call<'_>) -> Result<Answer, Refusal>
        ensures answer { Answered book_table self.old (loan_in tables.old) (asked call.now) self.new (loan_in tables.new) result }
        ensures same_tables { SameTables tables.old tables.new }
    {
        let schedule = &mut *tables.schedule;
        let nodes = &mut *tables.nodes;
        let couplings = &mut *tables.couplings;
        let (book, answer) = match std::mem::replace(self, Book::Unopened) {
            Book::Unopened => on_unopened(schedule, nodes, couplings, call),
            Book::Draft(draft) => on_draft(draft, schedule, nodes, couplings, call),
            Book::Sealed(sealed) => on_sealed(sealed, schedule, nodes, couplings, call),
        };
        *self = book;
        answer
    }
}
