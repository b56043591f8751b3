// The output of a text, for any reader and any writer: a contract can name their bytes, and not those of standard input and
// output.
ghost use Rattle.std.specs.Prelude.{OnOk, IfSome};
ghost use Rattle.std.specs.Io.KnownBytes.{Appends};
ghost use Rattle.text.specs.Lines.{left};
ghost use Rattle.session.specs.Printing.{refusal_line};
ghost use Rattle.clockmark.specs.Marked.{AnswersPrinted, OutputPrinted};

use book::Book;
use calling::request::Results;
use design::couplings::Coupling;
use design::nodes::Node;
use design::tables::Tables;
use kinds::arrival::Arrival;
use refusals::Refusal;
use reporting::report::{FLAG_LINE, VERDICT_LINE, WINDOW_LINE};
use schedule::Schedule;
use session::{GREATEST_TEXT, admit, answer};
use std::alloc::Global;
use std::io;
use std::io::{Read, Write};
use text::digits::digits_of;
use text::lines::Lines;
use timing::windows::Window;
use windows::flags::Flag;

// How many nodes and how many couplings a text may enter.
const NODES: usize = 256;

const COUPLINGS: usize = 256;

// How many bytes the longest answer has: the report of a verdict on as many nodes and couplings.
const LONGEST_REPLY: usize = VERDICT_LINE + WINDOW_LINE * NODES + FLAG_LINE * COUPLINGS;

// Prints the answer to each line that a reader has left, put to a book that is not opened.
fn print_answers<W: Write>(lines: Lines<'_>, out: &mut W) -> io::Result<()>
    ensures { OnOk result (AnswersPrinted (left lines.entry) (W.contents out.old) (W.contents out.new)) }
{
    let mut schedule = Schedule::blank();
    let mut nodes = [Node::Free; NODES];
    let mut couplings = [Coupling::NONE; COUPLINGS];
    let mut tables = Tables {
        schedule: &mut schedule,
        nodes: &mut nodes,
        couplings: &mut couplings,
    };
    let mut flags = [Flag::Clear; COUPLINGS];
    let mut windows = [Window { begins: 0, ends: 0 }; NODES];
    let mut column = [Arrival::NoPath; NODES];
    let mut results = Results {
        flags: &mut flags,
        windows: &mut windows,
        column: &mut column,
    };
    let mut book = Book::Unopened;
    // Long enough for every answer, so that no call below is refused as short.
    let mut room = [0; LONGEST_REPLY];
    for line in lines {
        if let Ok(count) = answer(&mut book, &mut tables, &mut results, line.bytes, &mut room) {
            out.write_all(&room[..count])?;
        }
    }
    Ok(())
}

// Prints the number of a refusal.
fn print_refusal<W: Write>(refusal: Refusal, out: &mut W) -> io::Result<()>
    ensures { OnOk result (Appends (W.contents out.old) (W.contents out.new) (refusal_line refusal)) }
{
    let [high, low] = digits_of(refusal.into());
    out.write_all(&[high, low, b'\n'])
}

// Prints the answer to each line of a text, or one refusal of the whole text.
fn print_output<W: Write>(text: &[u8], out: &mut W) -> io::Result<()>
    ensures { OnOk result (OutputPrinted text.now (W.contents out.old) (W.contents out.new)) }
{
    match admit(text) {
        Ok(lines) => print_answers(lines, out),
        Err(refusal) => print_refusal(refusal, out),
    }
}

// Reads a text and prints its output. One byte more than a text may have is read, so that a longer one is known by its
// length.
pub(crate) fn mark<R: Read + Drop, W: Write>(alloc: Global, input: R, out: &mut W) -> io::Result<()>
    ensures { OnOk result (IfSome (R.remaining input) (λ text. OutputPrinted text (W.contents out.old) (W.contents out.new))) }
{
    let mut text = Vec::new(alloc);
    input.take(GREATEST_TEXT as u64 + 1).read_to_end(&mut text)?;
    print_output(text.as_slice(), out)
}
