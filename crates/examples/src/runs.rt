// Lists of calls in which tables are made and judged.
use calling::request::{LentRequest, Reply, Request, Results};
use calling::run::run;
use design::calls::{Call, Gate, Input, Latch};
use design::couplings::Coupling;
use design::nodes::Node;
use design::tables::Tables;
use frames::rules::Rule;
use judging::verdict::{Judgement, Verdict};
use kinds::arrival::Arrival;
use refusals::Refusal;
use schedule::Schedule;
use schedule::figures::Figures;
use timing::windows::Window;
use windows::flags::Flag;

// What stands in the rows of a window table before a call, so that a row which is written shows.
const UNTOUCHED: Window = Window {
    begins: -7,
    ends: -7,
};

const PASSES: Judgement = Judgement {
    verdict: Verdict::Pass,
    rounds: 1,
    flags: 0,
};

const IS_LATE: Judgement = Judgement {
    verdict: Verdict::Late {
        latch: 4,
        excess: 3,
    },
    rounds: 2,
    flags: 1,
};

// Two phases that start at 0 and 50 in a period of 100, open for 40.
fn two_phases(proximity: u32) -> Figures {
    let mut starts = [0; 16];
    starts[1] = 50;
    Figures {
        period: 100,
        proximity,
        count: 2,
        starts,
        widths: [40; 16],
    }
}

// A call that is lent every row there is.
fn whole(request: Request<'_, Rule>) -> LentRequest<'_, Rule> {
    LentRequest {
        nodes: 9,
        couplings: 9,
        flags: 9,
        windows: 9,
        column: 9,
        request,
    }
}

fn change(call: Call<'_>) -> LentRequest<'_, Rule> {
    whole(Request::Change(call))
}

fn verify(rule: Rule) -> LentRequest<'static, Rule> {
    whole(Request::Verify(rule))
}

fn input(earliest: u32, latest: u32) -> LentRequest<'static, Rule> {
    change(Call::Input(Input {
        phase: 1,
        earliest,
        latest,
    }))
}

fn gate(least: u32, greatest: u32, sources: &[u16]) -> LentRequest<'_, Rule> {
    change(Call::Gate(Gate {
        phase: 1,
        least,
        greatest,
        sources,
    }))
}

// What is answered to a call: the number of its refusal, or 0.
fn number(answer: &Result<Reply, Refusal>) -> u8 {
    answer.err().map_or(0, u8::from)
}

fn judgement(answer: &Result<Reply, Refusal>) -> Option<Judgement> {
    match *answer {
        Ok(Reply::Judged(judgement)) => Some(judgement),
        _ => None,
    }
}

// Gate 3 switches from 70 to 82 and input 0 from 90 to 95, so that the coupling acts where the proximity is 8 or more, or
// where every coupling does. Then what arrives at latch 4 is up to 98, and its late bound is 95.
#[test]
fn one_list_with_three_rules(rt: HostRuntime) {
    let mut schedule = Schedule::blank();
    let mut nodes = [Node::Free; 6];
    let mut couplings = [Coupling::NONE; 2];
    let mut flags = [Flag::Clear; 2];
    let mut windows = [UNTOUCHED; 6];
    let mut column = [Arrival::NoPath; 6];
    let requests = [
        input(90, 95),
        input(60, 62),
        gate(10, 20, &[1]),
        gate(5, 6, &[2]),
        change(Call::Latch(Latch {
            phase: 2,
            least: 2,
            greatest: 4,
            setup: 5,
            hold: 3,
        })),
        change(Call::Feed {
            latch: 4,
            source: 3,
        }),
        change(Call::Couple(Coupling {
            victim: 3,
            aggressor: 0,
            assisting: 2,
            opposing: 60,
        })),
        verify(Rule::Always),
        change(Call::Seal),
        verify(Rule::Always),
        verify(Rule::Never),
        verify(Rule::ThreeOccurrences),
        change(Call::Retime {
            figures: two_phases(8),
        }),
        verify(Rule::ThreeOccurrences),
        LentRequest {
            flags: 0,
            ..verify(Rule::Never)
        },
        LentRequest {
            windows: 4,
            ..verify(Rule::Never)
        },
        change(Call::Reopen),
        verify(Rule::Never),
    ];
    let expected = [0, 0, 0, 0, 0, 0, 0, 14, 0, 0, 0, 0, 0, 0, 11, 11, 0, 14];
    let mut answers = [Err(Refusal::Figure); 19];
    let mut tables = Tables {
        schedule: &mut schedule,
        nodes: &mut nodes,
        couplings: &mut couplings,
    };
    let mut results = Results {
        flags: &mut flags,
        windows: &mut windows,
        column: &mut column,
    };
    let ran = run(
        &mut tables,
        &two_phases(0),
        &mut results,
        &requests,
        &mut answers,
    );
    assert!(rt; ran.is_ok());
    for (answer, expected) in answers.iter().zip(expected) {
        assert_eq!(rt; number(answer), expected);
    }
    assert_eq!(rt; judgement(&answers[9]), Some(IS_LATE));
    assert_eq!(rt; judgement(&answers[10]), Some(PASSES));
    assert_eq!(rt; judgement(&answers[11]), Some(PASSES));
    assert_eq!(rt; judgement(&answers[13]), Some(IS_LATE));
    assert_eq!(rt; number(&answers[18]), 4);
    assert_eq!(rt; flags, [Flag::Set, Flag::Clear]);
    assert_eq!(rt;
        windows[3],
        Window {
            begins: 70,
            ends: 82,
        }
    );
    assert_eq!(rt;
        windows[4],
        Window {
            begins: 60,
            ends: 98,
        }
    );
    assert_eq!(rt; windows[5], UNTOUCHED);
}

#[test]
fn lists_that_are_refused(rt: HostRuntime) {
    let mut schedule = Schedule::blank();
    let mut nodes = [Node::Free; 1];
    let mut couplings = [Coupling::NONE; 0];
    let mut tables = Tables {
        schedule: &mut schedule,
        nodes: &mut nodes,
        couplings: &mut couplings,
    };
    let mut results = Results {
        flags: &mut [],
        windows: &mut [],
        column: &mut [],
    };
    let requests = [input(0, 9), verify(Rule::Never)];
    let mut answers = [Err(Refusal::Figure); 1];
    let unlawful = Figures {
        period: 0,
        ..two_phases(0)
    };
    let refused = run(
        &mut tables,
        &unlawful,
        &mut results,
        &requests,
        &mut answers,
    );
    assert!(rt; matches!(refused, Err(Refusal::Clock)));
    let refused = run(
        &mut tables,
        &two_phases(0),
        &mut results,
        &requests,
        &mut answers,
    );
    assert!(rt; matches!(refused, Err(Refusal::Short)));
    assert_eq!(rt; number(&answers[0]), 4);
    assert!(rt; matches!(nodes, [Node::Free]));
}
