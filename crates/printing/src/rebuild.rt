// The text of the table that a text leaves.
ghost use Rattle.design.specs.Table.{loan_in};
ghost use Rattle.book.specs.Views.{book_table};
ghost use Rattle.printing.specs.Judging.{HasRows, text_in, TextPut, RebuiltText};

use book::Book;
use design::couplings::Coupling;
use design::nodes::Node;
use design::tables::Tables;
use listing::write::write;
use loading::load::load;
use refusals::Refusal;
use schedule::Schedule;
use states::counts::{MOST_COUPLINGS, MOST_NODES};

// Writes the text of a book's table into the first places of `out`; a book that is not opened has none.
fn put_text(book: &Book, tables: &Tables<'_>, out: &mut [u8]) -> Result<usize, Refusal>
    requires { HasRows (loan_in tables.now) }
    ensures { TextPut (text_in (book_table book.now (loan_in tables.now))) out.old out.new result }
{
    match book {
        Book::Unopened => Ok(0),
        Book::Draft(draft) => write(draft, tables.schedule, tables.nodes, tables.couplings, out),
        Book::Sealed(sealed) => write(sealed, tables.schedule, tables.nodes, tables.couplings, out),
    }
}

// Loads a text into a new book, and writes the text of its table into the first places of `out`.
pub fn rebuild(text: &[u8], out: &mut [u8]) -> Result<usize, Refusal>
    ensures { RebuiltText text.now out.old out.new result }
{
    let mut schedule = Schedule::blank();
    let mut nodes = [Node::Free; MOST_NODES];
    let mut couplings = [Coupling::NONE; MOST_COUPLINGS];
    let mut tables = Tables {
        schedule: &mut schedule,
        nodes: &mut nodes,
        couplings: &mut couplings,
    };
    let (book, granted) = load(&mut tables, text);
    if let Err(fault) = granted {
        return Err(fault.refusal);
    }
    put_text(&book, &tables, out)
}
