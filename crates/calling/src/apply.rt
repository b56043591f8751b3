// A call put to a book in whichever state it is.
ghost use Rattle.design.specs.Table.{loan_in, SameTables};
ghost use Rattle.calling.specs.Requests.{meant};
ghost use Rattle.calling.specs.Applied.{results_in, VerifyApplied, Applied, SameResults};

use super::request::{Reply, Request, Results};
use book::Book;
use design::tables::Tables;
use refusals::Refusal;
use rules::CouplingRule;
use verifying::verify::verify;

// Judges the table, if the book is sealed.
fn judge<R: CouplingRule>(
    book: &Book,
    tables: &Tables<'_>,
    rule: &R,
    results: &mut Results<'_>,
) -> Result<Reply, Refusal>
    ensures answer { VerifyApplied book.now (loan_in tables.now) (R.meaning rule.now) (results_in results.old) (results_in results.new) result }
    ensures same_results { SameResults results.old results.new }
{
    let Book::Sealed(sealed) = book else {
        return Err(Refusal::Order);
    };
    verify(
        sealed,
        tables.schedule,
        tables.nodes,
        tables.couplings,
        rule,
        results.flags,
        results.windows,
        results.column,
    )
    .map(Reply::Judged)
}

// Makes a call; one that the state does not take is refused.
pub fn apply<R: CouplingRule>(
    book: &mut Book,
    tables: &mut Tables<'_>,
    results: &mut Results<'_>,
    request: &Request<'_, R>,
) -> Result<Reply, Refusal>
    ensures answer { Applied book.old (loan_in tables.old) (results_in results.old) (meant R.meaning request.now) book.new (loan_in tables.new) (results_in results.new) result }
    ensures same_tables { SameTables tables.old tables.new }
    ensures same_results { SameResults results.old results.new }
{
    match request {
        Request::Change(call) => book.apply(tables, call).map(Reply::Changed),
        Request::Verify(rule) => judge(book, tables, rule, results),
    }
}
