// A whole list of calls made to a new book.
ghost use Rattle.schedule.specs.Made.{drawn};
ghost use Rattle.design.specs.Table.{loan_in, SameTables};
ghost use Rattle.states.specs.Views.{loan_of};
ghost use Rattle.calling.specs.Requests.{meant};
ghost use Rattle.calling.specs.Applied.{rows_in, results_in, Applied, lent_rows, SameResults};
ghost use Rattle.calling.specs.Runs.{history, Ran};

use super::apply::apply;
use super::request::{LentRequest, Reply, Request, Results};
use book::Book;
use design::couplings::Coupling;
use design::nodes::Node;
use design::tables::Tables;
use kinds::arrival::Arrival;
use refusals::Refusal;
use rules::CouplingRule;
use schedule::Schedule;
use schedule::figures::Figures;
use states::Draft;
use timing::windows::Window;
use windows::flags::Flag;

// Makes a call on tables that are lent one by one, so that parts of them can be lent.
fn make<R: CouplingRule>(
    book: &mut Book,
    schedule: &mut Schedule,
    nodes: &mut [Node],
    couplings: &mut [Coupling],
    flags: &mut [Flag],
    windows: &mut [Window],
    column: &mut [Arrival],
    request: &Request<'_, R>,
) -> Result<Reply, Refusal>
    ensures { Applied book.old (loan_of schedule.old nodes.old couplings.old) (rows_in flags.old windows.old column.old) (meant R.meaning request.now) book.new (loan_of schedule.new nodes.new couplings.new) (rows_in flags.new windows.new column.new) result }
{
    let mut tables = Tables {
        schedule,
        nodes,
        couplings,
    };
    let mut results = Results {
        flags,
        windows,
        column,
    };
    apply(book, &mut tables, &mut results, request)
}

// Opens a book and makes the calls in their order, whether those before them were granted or refused. The answer to
// each call goes to its place in `answers`.
pub fn run<R: CouplingRule>(
    tables: &mut Tables<'_>,
    figures: &Figures,
    results: &mut Results<'_>,
    requests: &[LentRequest<'_, R>],
    answers: &mut [Result<Reply, Refusal>],
) -> Result<Book, Refusal>
    ensures answers { Ran (loan_in tables.old) (drawn figures.now) (history R.meaning (lent_rows (loan_in tables.old) (results_in results.old)) requests.now) answers.old (results_in results.old) (loan_in tables.new) answers.new (results_in results.new) result }
    ensures same_tables { SameTables tables.old tables.new }
    ensures same_results { SameResults results.old results.new }
{
    // The test of the clock comes before that of the places.
    let _lawful = Schedule::new(figures)?;
    if answers.len() < requests.len() {
        return Err(Refusal::Short);
    }
    let schedule = &mut *tables.schedule;
    let nodes = &mut *tables.nodes;
    let couplings = &mut *tables.couplings;
    let flags = &mut *results.flags;
    let windows = &mut *results.windows;
    let column = &mut *results.column;
    let mut book = Book::Draft(Draft::open(schedule, nodes, couplings, figures)?);
    for (k, made) in requests.iter().enumerate() {
        let lent_nodes = made.nodes.min(nodes.len());
        let lent_couplings = made.couplings.min(couplings.len());
        let lent_flags = made.flags.min(flags.len());
        let lent_windows = made.windows.min(windows.len());
        let lent_column = made.column.min(column.len());
        let answer = make(
            &mut book,
            schedule,
            &mut nodes[..lent_nodes],
            &mut couplings[..lent_couplings],
            &mut flags[..lent_flags],
            &mut windows[..lent_windows],
            &mut column[..lent_column],
            &made.request,
        );
        // By index: of places that are lent for writing only their number is known afterwards.
        answers[k] = answer;
    }
    Ok(book)
}
