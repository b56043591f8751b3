// The lines of a text answered one after another.
ghost use Rattle.std.specs.Prelude.{◌≡◌, ◌+◌, ◌≤◌, length};
ghost use Rattle.design.specs.Table.{loan_in, SameTables};
ghost use Rattle.calling.specs.Applied.{results_in, SameResults};
ghost use Rattle.printing.specs.Room.{most_reply, room_for};
ghost use Rattle.printing.specs.Replies.{LineReplied, TextReplied};

use book::Book;
use calling::request::Results;
use design::tables::Tables;
use session::answer;
use text::lines::Lines;

// Puts a line to the book, writes its reply into the first places of `room`, and answers how many bytes that is.
fn reply(
    book: &mut Book,
    tables: &mut Tables<'_>,
    results: &mut Results<'_>,
    line: &[u8],
    room: &mut [u8],
) -> usize
    requires { most_reply ≤ length room.old }
    ensures reply { LineReplied book.old (loan_in tables.old) (results_in results.old) line.now book.new (loan_in tables.new) (results_in results.new) room.new result }
    ensures same_tables { SameTables tables.old tables.new }
    ensures same_results { SameResults results.old results.new }
{
    // There is room for every reply, so none is refused.
    answer(book, tables, results, line, room).unwrap()
}

// Puts the lines of a text to a book and writes their replies into `out` from a place on, one after another. Answers
// where they end. Each reply is written into `room` first, which has room for every one.
pub(crate) fn reply_to_all(
    book: &mut Book,
    tables: &mut Tables<'_>,
    results: &mut Results<'_>,
    text: &[u8],
    room: &mut [u8],
    out: &mut [u8],
    place: usize,
) -> usize
    requires roomy { most_reply ≤ length room.old }
    requires fits { place + room_for text.now ≤ length out.old }
    ensures replies { TextReplied book.old (loan_in tables.old) (results_in results.old) text.now place out.old book.new (loan_in tables.new) (results_in results.new) out.new result }
    ensures same_tables { SameTables tables.old tables.new }
    ensures same_results { SameResults results.old results.new }
{
    let mut end = place;
    for line in Lines::new(text) {
        let count = reply(book, tables, results, line.bytes, room);
        out[end..end + count].copy_from_slice(&room[..count]);
        end += count;
    }
    end
}
