// Lists of calls and their answers: each refusal that a call on an open book can meet.
use super::clocks::{one_phase, two_phases};
use calling::request::{LentRequest, Reply, Request, Results};
use calling::run::run;
use design::calls::{Answer, Call, Gate, Input, Latch};
use design::couplings::Coupling;
use design::nodes::Node;
use design::tables::Tables;
use frames::rules::Rule;
use refusals::Refusal;
use schedule::Schedule;

// What is answered to a call: the number of its refusal, or 0.
fn number(answer: &Result<Reply, Refusal>) -> u8 {
    answer.err().map_or(0, u8::from)
}

// A call that is lent so many rows of each table, and nothing for verdicts.
fn lent(nodes: usize, couplings: usize, call: Call<'_>) -> LentRequest<'_, Rule> {
    LentRequest {
        nodes,
        couplings,
        flags: 0,
        windows: 0,
        column: 0,
        request: Request::Change(call),
    }
}

// A call with both tables lent whole.
fn whole(call: Call<'_>) -> LentRequest<'_, Rule> {
    lent(9, 9, call)
}

// A call that is lent one node and no coupling.
fn short(call: Call<'_>) -> LentRequest<'_, Rule> {
    lent(1, 0, call)
}

// Makes a list of calls, none of which is a verify, to a new book.
fn made(
    tables: &mut Tables<'_>,
    calls: &[LentRequest<'_, Rule>],
    answers: &mut [Result<Reply, Refusal>],
) -> bool {
    let mut results = Results {
        flags: &mut [],
        windows: &mut [],
        column: &mut [],
    };
    run(tables, &two_phases(), &mut results, calls, answers).is_ok()
}

fn input(phase: u8, earliest: u32, latest: u32) -> LentRequest<'static, Rule> {
    whole(Call::Input(Input {
        phase,
        earliest,
        latest,
    }))
}

fn gate(phase: u8, least: u32, greatest: u32, sources: &[u16]) -> LentRequest<'_, Rule> {
    whole(Call::Gate(Gate {
        phase,
        least,
        greatest,
        sources,
    }))
}

fn latch(phase: u8, least: u32, greatest: u32) -> LentRequest<'static, Rule> {
    whole(Call::Latch(Latch {
        phase,
        least,
        greatest,
        setup: 5,
        hold: 3,
    }))
}

fn feed(latch: u16, source: u16) -> LentRequest<'static, Rule> {
    whole(Call::Feed { latch, source })
}

fn couple(victim: u16, aggressor: u16, assisting: u32) -> LentRequest<'static, Rule> {
    whole(Call::Couple(Coupling {
        victim,
        aggressor,
        assisting,
        opposing: 8,
    }))
}

#[test]
fn each_refusal_of_a_draft(rt: HostRuntime) {
    let mut schedule = Schedule::blank();
    let mut nodes = [Node::Free; 3];
    let mut couplings = [Coupling::NONE; 1];
    let calls = [
        input(0, 0, 9),
        input(1, 9, 0),
        input(1, 0, 16_777_216),
        input(1, 0, 16_777_215),
        gate(1, 10, 20, &[]),
        gate(1, 10, 20, &[0, 1]),
        gate(1, 10, 20, &[0]),
        latch(2, 2, 4),
        whole(Call::Seal),
        feed(1, 0),
        feed(2, 1),
        couple(0, 1, 5),
        couple(1, 1, 5),
        couple(1, 0, 11),
        couple(1, 0, 10),
        couple(1, 2, 0),
        latch(1, 2, 4),
        whole(Call::Retime {
            figures: one_phase(),
        }),
        whole(Call::Reopen),
        whole(Call::Open {
            figures: two_phases(),
        }),
        whole(Call::Seal),
    ];
    let expected = [
        2, 3, 4, 0, 5, 6, 0, 0, 10, 6, 0, 6, 7, 8, 0, 1, 1, 9, 14, 14, 0,
    ];
    let mut answers = [Err(Refusal::Order); 21];
    let mut tables = Tables {
        schedule: &mut schedule,
        nodes: &mut nodes,
        couplings: &mut couplings,
    };
    assert!(rt; made(&mut tables, &calls, &mut answers));
    for (answer, expected) in answers.iter().zip(expected) {
        assert_eq!(rt; number(answer), expected);
    }
}

#[test]
fn short_tables(rt: HostRuntime) {
    let mut schedule = Schedule::blank();
    let mut nodes = [Node::Free; 3];
    let mut couplings = [Coupling::NONE; 2];
    let calls = [
        latch(1, 2, 4),
        latch(1, 2, 4),
        couple(0, 1, 2),
        short(Call::Seal),
        feed(0, 1),
        short(Call::Seal),
        short(Call::Feed {
            latch: 1,
            source: 0,
        }),
        short(Call::Input(Input {
            phase: 1,
            earliest: 0,
            latest: 0,
        })),
        short(Call::Gate(Gate {
            phase: 1,
            least: 0,
            greatest: 0,
            sources: &[1],
        })),
        short(Call::Latch(Latch {
            phase: 1,
            least: 0,
            greatest: 0,
            setup: 0,
            hold: 0,
        })),
        short(Call::Couple(Coupling {
            victim: 0,
            aggressor: 1,
            assisting: 2,
            opposing: 0,
        })),
        short(Call::Retime {
            figures: two_phases(),
        }),
        feed(1, 0),
        whole(Call::Seal),
        short(Call::Reopen),
        whole(Call::Reopen),
    ];
    let expected = [0, 0, 0, 10, 0, 11, 11, 11, 11, 11, 11, 11, 0, 0, 11, 0];
    let mut answers = [Err(Refusal::Order); 16];
    let mut tables = Tables {
        schedule: &mut schedule,
        nodes: &mut nodes,
        couplings: &mut couplings,
    };
    assert!(rt; made(&mut tables, &calls, &mut answers));
    for (answer, expected) in answers.iter().zip(expected) {
        assert_eq!(rt; number(answer), expected);
    }
}

// Most of these calls fail several of their tests.
#[test]
fn the_first_test_that_applies(rt: HostRuntime) {
    let mut schedule = Schedule::blank();
    let mut nodes = [Node::Free; 3];
    let mut couplings = [Coupling::NONE; 2];
    let calls = [
        input(0, 9, 0),
        input(1, 16_777_216, 0),
        gate(1, 0, 1_048_576, &[]),
        gate(1, 0, 0, &[9, 9, 9, 9, 9]),
        latch(1, 2, 4),
        latch(1, 2, 4),
        couple(9, 9, 1_048_576),
        couple(9, 9, 9),
        couple(0, 0, 9),
        couple(0, 1, 3),
        couple(0, 1, 2),
        couple(0, 1, 9),
        input(1, 0, 0),
        input(0, 9, 0),
        couple(1, 0, 0),
        couple(9, 9, 1_048_576),
        lent(
            0,
            0,
            Call::Retime {
                figures: one_phase(),
            },
        ),
    ];
    let expected = [2, 3, 4, 5, 0, 0, 4, 6, 7, 8, 0, 7, 0, 1, 0, 1, 9];
    let mut answers = [Err(Refusal::Order); 17];
    let mut tables = Tables {
        schedule: &mut schedule,
        nodes: &mut nodes,
        couplings: &mut couplings,
    };
    assert!(rt; made(&mut tables, &calls, &mut answers));
    for (answer, expected) in answers.iter().zip(expected) {
        assert_eq!(rt; number(answer), expected);
    }
    assert!(rt; matches!(answers[4], Ok(Reply::Changed(Answer::Node(0)))));
    assert!(rt; matches!(answers[12], Ok(Reply::Changed(Answer::Node(2)))));
    assert!(rt; matches!(answers[14], Ok(Reply::Changed(Answer::Coupling(1)))));
}
