// The call that judges a sealed table.
ghost use Rattle.std.specs.Prelude.{◌≤◌, length};
ghost use Rattle.states.specs.Views.{loan_of, sealed_table};
ghost use Rattle.verifying.specs.Answers.{JudgeAnswered, VerifyAnswered};

use super::asking::{clear, flag_seen};
use super::verdicts::verdict_of;
use design::couplings::Coupling;
use design::nodes::Node;
use judging::verdict::Judgement;
use kinds::arrival::Arrival;
use refusals::Refusal;
use rules::CouplingRule;
use schedule::Schedule;
use states::Sealed;
use timing::windows::Window;
use windows::carried::Carried;
use windows::checked::Checked;
use windows::flags::Flag;
use windows::found::Ends;
use windows::rows::{Rows, rows_of};

// Judges the rows of a table in rounds that begin without flags, with room for so many nodes. What one round leaves the
// next one goes on from. It is not inlined, so that a small table is judged in a small frame.
#[inline(never)]
fn judge<R: CouplingRule, const N: usize>(
    rows: &Rows<'_>,
    rule: &R,
    flags: &mut [Flag],
    windows: &mut [Window],
    column: &mut [Arrival],
) -> Result<Judgement, Refusal>
    requires room { length rows.now.nodes.now ≤ N }
    requires size { N ≤ 4096 }
    requires few_couplings { length rows.now.couplings.now ≤ 1024 }
    requires flags_fit { length rows.now.couplings.now ≤ length flags.old }
    requires windows_fit { length rows.now.nodes.now ≤ length windows.old }
    requires column_fits { length rows.now.nodes.now ≤ length column.old }
    ensures { JudgeAnswered rows.now (R.meaning rule.now) flags.old flags.new windows.old windows.new column.old column.new result }
{
    let mut carried = match Carried::<N>::begin(rows) {
        Ok(carried) => carried,
        Err(refused) => return Err(refused),
    };
    clear(flags, rows.couplings.len());
    let mut set = 0;
    let mut made: u16 = 0;
    let (ends, rounds) = loop {
        let ends = carried.find(column)?;
        if let Ends::NoneAt { .. } = ends {
            break (ends, made + 1);
        }
        let fresh = flag_seen(rows, &mut carried, rule, flags);
        if fresh == 0 {
            break (ends, made + 1);
        }
        set += fresh;
        made += 1;
    };
    let counted = set as u16;
    if let Ends::NoneAt { latch } = ends {
        return Ok(Judgement {
            verdict: verdict_of(Checked::NoEnd { latch }),
            rounds,
            flags: counted,
        });
    }
    let checked = carried.finish(windows, column)?;
    Ok(Judgement {
        verdict: verdict_of(checked),
        rounds,
        flags: counted,
    })
}

// Judges a sealed table: finds the least closed set of its couplings under the rule, in rounds that begin without flags,
// and the verdict on the windows under it; or that no set is closed, where a window has no end. The flags of the last
// round stand in `flags`, and its windows in `windows` unless one has no end. The column is room to work in. There is room
// for as many nodes as a book takes in one of three sizes, so that little is cleared for a small table.
pub fn verify<R: CouplingRule>(
    book: &Sealed,
    schedule: &Schedule,
    nodes: &[Node],
    couplings: &[Coupling],
    rule: &R,
    flags: &mut [Flag],
    windows: &mut [Window],
    column: &mut [Arrival],
) -> Result<Judgement, Refusal>
    ensures { VerifyAnswered (sealed_table book.now) (loan_of schedule.now nodes.now couplings.now) (R.meaning rule.now) flags.old flags.new windows.old windows.new column.old column.new result }
{
    let places = windows.len().min(column.len());
    let rows = rows_of(book, schedule, nodes, couplings, flags.len(), places)?;
    if rows.nodes.len() <= 128 {
        judge::<R, 128>(&rows, rule, flags, windows, column)
    } else if rows.nodes.len() <= 1024 {
        judge::<R, 1024>(&rows, rule, flags, windows, column)
    } else {
        judge::<R, 4096>(&rows, rule, flags, windows, column)
    }
}
