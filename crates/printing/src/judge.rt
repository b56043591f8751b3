// A judgement of the table that a text leaves.
ghost use Rattle.std.specs.Prelude.{◌≤◌, length};
ghost use Rattle.design.specs.Table.{most_nodes, most_couplings, loan_in};
ghost use Rattle.states.specs.Views.{sealed_table};
ghost use Rattle.printing.specs.Judging.{HasRows, JudgedSoFar, JudgedText};

use book::Book;
use design::couplings::Coupling;
use design::nodes::Node;
use design::tables::Tables;
use frames::rules::Rule;
use judging::verdict::Judgement;
use kinds::arrival::Arrival;
use loading::load::load;
use refusals::Refusal;
use reporting::lines::verdict_bytes;
use schedule::Schedule;
use states::Sealed;
use states::counts::{MOST_COUPLINGS, MOST_NODES};
use timing::windows::Window;
use verifying::verify::verify;
use windows::flags::Flag;

// How many bytes the line of a verdict spells.
const VERDICT: usize = 15;

// Judges a sealed table on tables that have all their rows, so that no judgement is refused.
fn judgement_on(
    sealed: &Sealed,
    tables: &Tables<'_>,
    rule: Rule,
    flags: &mut [Flag],
    windows: &mut [Window],
    column: &mut [Arrival],
) -> Judgement
    requires rows { HasRows (loan_in tables.now) }
    requires flags { most_couplings ≤ length flags.old }
    requires windows { most_nodes ≤ length windows.old }
    requires column { most_nodes ≤ length column.old }
    ensures { JudgedSoFar (sealed_table sealed.now (loan_in tables.now)) rule result }
{
    verify(
        sealed,
        tables.schedule,
        tables.nodes,
        tables.couplings,
        &rule,
        flags,
        windows,
        column,
    )
    .unwrap()
}

// Judges a sealed table so many times over, and at least once.
fn judgement_of(sealed: &Sealed, tables: &Tables<'_>, rule: Rule, times: u32) -> Judgement
    requires { HasRows (loan_in tables.now) }
    ensures { JudgedSoFar (sealed_table sealed.now (loan_in tables.now)) rule result }
{
    let mut flags = [Flag::Clear; MOST_COUPLINGS];
    let mut windows = [Window { begins: 0, ends: 0 }; MOST_NODES];
    let mut column = [Arrival::NoPath; MOST_NODES];
    for _ in 1..times {
        let _ = judgement_on(sealed, tables, rule, &mut flags, &mut windows, &mut column);
    }
    judgement_on(sealed, tables, rule, &mut flags, &mut windows, &mut column)
}

// Loads a text into a new book, judges its table under the rule of a byte so many times over and at least once, and writes
// the bytes of the verdict's line into the first places of `verdict`.
pub fn judge(text: &[u8], rule: u8, times: u32, verdict: &mut [u8]) -> Result<usize, Refusal>
    ensures { JudgedText text.now rule verdict.old verdict.new result }
{
    let rule = Rule::try_from(rule)?;
    let mut schedule = Schedule::blank();
    let mut nodes = [Node::Free; MOST_NODES];
    let mut couplings = [Coupling::NONE; MOST_COUPLINGS];
    let mut tables = Tables {
        schedule: &mut schedule,
        nodes: &mut nodes,
        couplings: &mut couplings,
    };
    let (book, granted) = load(&mut tables, text);
    if let Err(fault) = granted {
        return Err(fault.refusal);
    }
    let Book::Sealed(sealed) = book else {
        return Err(Refusal::Order);
    };
    if verdict.len() < VERDICT {
        return Err(Refusal::Short);
    }
    let judgement = judgement_of(&sealed, &tables, rule, times);
    verdict[..VERDICT].copy_from_slice(&verdict_bytes(&judgement));
    Ok(VERDICT)
}
