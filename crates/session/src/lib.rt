// A session with a book: lines of a text in, printed lines out.
#![tactic(auto)]

ghost use Rattle.std.specs.Prelude.{◌≡◌, ◌≤◌, length, take};
ghost use Rattle.design.specs.Table.{loan_in, Loan, SameTables};
ghost use Rattle.book.specs.Views.{book_table};
ghost use Rattle.reporting.specs.Report.{report_of};
ghost use Rattle.calling.specs.Applied.{results_in, SameResults};
ghost use Rattle.session.specs.Printing.{answer_line};
ghost use Rattle.session.specs.Replies.{Admitted, longest_reply, Put, VerdictPut, Replied};
ghost use Rattle.session.specs.Theorems.{OneOutput, LinesKeepSoFar};

pub mod theorem;

use book::Book;
use calling::apply::apply;
use calling::request::{Reply, Request, Results};
use design::calls::Answer;
use design::tables::Tables;
use frames::Frame;
use frames::rules::Rule;
use judging::verdict::Judgement;
use loading::line::take_frame;
use reading::line::read_line;
use refusals::Refusal;
use reporting::report::{length_of, report};
use text::digits::LONGEST;
use text::lines::Lines;
use text::spelling::spell_line;
use theorem::Theorem;

// How many bytes a text may have.
pub const GREATEST_TEXT: usize = 65_536;

// The lines of a text that is short enough to be read; a longer one is refused whole.
pub fn admit(text: &[u8]) -> Result<Lines<'_>, Refusal>
    ensures { Admitted text.now result }
{
    if text.len() > GREATEST_TEXT {
        return Err(Refusal::Full);
    }
    Ok(Lines::new(text))
}

// How many nodes and how many couplings are granted.
fn granted(book: &Book) -> (usize, usize)
    ensures counted { (loan : Loan) → (result.0 ≡ length (book_table book.now loan).nodes) × (result.1 ≡ length (book_table book.now loan).couplings) }
    ensures few { (result.0 ≤ 4096) × (result.1 ≤ 1024) }
{
    match book.counts() {
        Some(counts) => (counts.nodes, counts.couplings),
        None => (0, 0),
    }
}

// How many bytes the longest reply to a line has: the report of a verdict.
pub fn longest_reply(book: &Book) -> usize
    ensures { (loan : Loan) → result ≡ longest_reply (book_table book.now loan) }
{
    let (nodes, couplings) = granted(book);
    length_of(nodes, couplings)
}

// Writes what is printed for an answer into the first places of `out`.
fn put_answer(answer: Result<Answer, Refusal>, out: &mut [u8]) -> Result<usize, Refusal>
    ensures { Put (answer_line answer) out.old out.new result }
{
    match answer {
        Ok(Answer::Done) => spell_line(&[0], out, 0),
        Ok(Answer::Node(number)) | Ok(Answer::Coupling(number)) => {
            let [high, low] = number.to_be_bytes();
            spell_line(&[0, high, low], out, 0)
        }
        Err(refusal) => spell_line(&[refusal.into()], out, 0),
    }
}

// Writes the report of a judgement into the first places of `out`, with the windows of so many nodes and the flags of so
// many couplings, which stand first in their tables.
fn put_report(
    judgement: &Judgement,
    nodes: usize,
    couplings: usize,
    results: &Results<'_>,
    out: &mut [u8],
) -> Result<usize, Refusal>
    requires { (nodes ≤ length results.now.windows.now) × (couplings ≤ length results.now.flags.now) }
    ensures { Put (report_of judgement.now (take nodes results.now.windows.now) (take couplings results.now.flags.now)) out.old out.new result }
{
    report(
        judgement,
        &results.windows[..nodes],
        &results.flags[..couplings],
        out,
    )
}

// Judges the table under a rule, and writes what is printed for it into the first places of `out`: with a verdict the
// windows of the nodes and the flags of the couplings.
fn judge(
    book: &mut Book,
    tables: &mut Tables<'_>,
    results: &mut Results<'_>,
    rule: Rule,
    out: &mut [u8],
) -> Result<usize, Refusal>
    ensures verdict { VerdictPut rule book.old (loan_in tables.old) (results_in results.old) out.old book.new (loan_in tables.new) (results_in results.new) out.new result }
    ensures same_tables { SameTables tables.old tables.new }
    ensures same_results { SameResults results.old results.new }
{
    let (nodes, couplings) = granted(book);
    match apply(book, tables, results, &Request::Verify(rule)) {
        Ok(Reply::Judged(judgement)) => put_report(&judgement, nodes, couplings, results, out),
        Ok(Reply::Changed(answer)) => put_answer(Ok(answer), out),
        Err(refusal) => put_answer(Err(refusal), out),
    }
}

// Puts a line to the book, writes what is printed for it into the first places of `out`, and answers how many bytes
// that is. Nothing is done where `out` has not room for the longest reply.
pub fn answer(
    book: &mut Book,
    tables: &mut Tables<'_>,
    results: &mut Results<'_>,
    line: &[u8],
    out: &mut [u8],
) -> Result<usize, Refusal>
    ensures reply { Replied book.old (loan_in tables.old) (results_in results.old) line.now out.old book.new (loan_in tables.new) (results_in results.new) out.new result }
    ensures same_tables { SameTables tables.old tables.new }
    ensures same_results { SameResults results.old results.new }
{
    if out.len() < longest_reply(book) {
        return Err(Refusal::Short);
    }
    let mut room = [0; LONGEST];
    match read_line(line, &mut room) {
        Ok(Frame::Verify { rule }) => judge(book, tables, results, rule, out),
        Ok(frame) => put_answer(take_frame(book, tables, &frame), out),
        Err(refusal) => put_answer(Err(refusal), out),
    }
}

// A text has one output at most.
pub fn one_output() -> Theorem
    ensures theorem { OneOutput }
    ensures value { result ≡ Theorem.OneOutput }
{
    Theorem::OneOutput
}

// Any line leaves a table so far a table so far.
pub fn lines_keep_so_far() -> Theorem
    ensures theorem { LinesKeepSoFar }
    ensures value { result ≡ Theorem.LinesKeepSoFar }
{
    Theorem::LinesKeepSoFar
}
