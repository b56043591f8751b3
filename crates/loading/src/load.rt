// A whole text loaded into a new book.
ghost use Rattle.design.specs.Table.{loan_in, SameTables};
ghost use Rattle.loading.specs.Loads.{LoadedBy};

use super::line::take_line;
use book::Book;
use design::tables::Tables;
use refusals::Fault;
use text::lines::Lines;

// Puts the lines of a text to a book that is not opened, up to the first that is refused, and hands out the book as
// it then is, with how many lines were granted or the fault of the line that was not.
pub fn load(tables: &mut Tables<'_>, text: &[u8]) -> (Book, Result<usize, Fault>)
    ensures text { LoadedBy (loan_in tables.old) text.now (loan_in tables.new) result.0 result.1 }
    ensures same_tables { SameTables tables.old tables.new }
{
    let mut book = Book::Unopened;
    let mut granted = 0;
    for line in Lines::new(text) {
        if let Err(refusal) = take_line(&mut book, tables, line.bytes) {
            return (book, Err(Fault::at(line.number, refusal)));
        }
        granted = line.number;
    }
    (book, Ok(granted))
}
