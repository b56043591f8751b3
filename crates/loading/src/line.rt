// A line put to a book, through digits, frame and call.
ghost use Rattle.frames.specs.Contents.{content_of};
ghost use Rattle.design.specs.Table.{loan_in, SameTables};
ghost use Rattle.loading.specs.Loads.{FrameTaken, LineTaken};

use super::calls::{MOST_LISTED, call_of};
use book::Book;
use design::calls::Answer;
use design::tables::Tables;
use frames::Frame;
use reading::line::read_line;
use refusals::Refusal;
use text::digits::LONGEST;

// Does what a frame asks; one that is refused changes nothing. A verify changes no table, and is refused too.
pub fn take_frame(
    book: &mut Book,
    tables: &mut Tables<'_>,
    frame: &Frame<'_>,
) -> Result<Answer, Refusal>
    ensures frame { FrameTaken book.old (loan_in tables.old) (content_of frame.now) book.new (loan_in tables.new) result }
    ensures same_tables { SameTables tables.old tables.new }
{
    let mut sources = [0; MOST_LISTED];
    let call = call_of(book.is_open(), frame, &mut sources)?;
    book.apply(tables, &call)
}

// Does what a line asks; one that is refused, by its digits, its frame or the book, changes nothing.
pub fn take_line(book: &mut Book, tables: &mut Tables<'_>, line: &[u8]) -> Result<Answer, Refusal>
    ensures line { LineTaken book.old (loan_in tables.old) line.now book.new (loan_in tables.new) result }
    ensures same_tables { SameTables tables.old tables.new }
{
    let mut room = [0; LONGEST];
    let frame = read_line(line, &mut room)?;
    take_frame(book, tables, &frame)
}
