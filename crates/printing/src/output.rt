// What is printed for whole texts.
ghost use Rattle.printing.specs.Outputs.{Printed, PrintedOver};

use super::overwriting::overwrite;
use super::replies::reply_to_all;
use super::room::{LONGEST_REPLY, room_for};
use book::Book;
use calling::request::Results;
use design::couplings::Coupling;
use design::nodes::Node;
use design::tables::Tables;
use kinds::arrival::Arrival;
use refusals::Refusal;
use schedule::Schedule;
use states::counts::{MOST_COUPLINGS, MOST_NODES};
use timing::windows::Window;
use windows::flags::Flag;

// Puts the lines of a text to a new book, and writes what is printed for them into the first places of `out`. Nothing is
// done where `out` has not room for the longest output.
pub fn output(text: &[u8], out: &mut [u8]) -> Result<usize, Refusal>
    ensures { Printed text.now out.old out.new result }
{
    output_overwritten(text, text.len(), &[], out)
}

// The same, but the lines up to a place of the text are put to the book first, then rows of its tables are overwritten
// behind its back, as records say it, and then the lines of the rest are put to the same book.
pub fn output_overwritten(
    text: &[u8],
    place: usize,
    records: &[u8],
    out: &mut [u8],
) -> Result<usize, Refusal>
    ensures { PrintedOver text.now place records.now out.old out.new result }
{
    let (first, rest) = text.split_at(place.min(text.len()));
    if out.len() < room_for(first).saturating_add(room_for(rest)) {
        return Err(Refusal::Short);
    }
    let mut schedule = Schedule::blank();
    let mut nodes = [Node::Free; MOST_NODES];
    let mut couplings = [Coupling::NONE; MOST_COUPLINGS];
    let mut flags = [Flag::Clear; MOST_COUPLINGS];
    let mut windows = [Window { begins: 0, ends: 0 }; MOST_NODES];
    let mut column = [Arrival::NoPath; MOST_NODES];
    let mut room = [0; LONGEST_REPLY];
    let mut tables = Tables {
        schedule: &mut schedule,
        nodes: &mut nodes,
        couplings: &mut couplings,
    };
    let mut results = Results {
        flags: &mut flags,
        windows: &mut windows,
        column: &mut column,
    };
    let mut book = Book::Unopened;
    let end = reply_to_all(
        &mut book,
        &mut tables,
        &mut results,
        first,
        &mut room,
        out,
        0,
    );
    overwrite(&mut tables, records);
    Ok(reply_to_all(
        &mut book,
        &mut tables,
        &mut results,
        rest,
        &mut room,
        out,
        end,
    ))
}
