// One small design judged under each rule, with other figures, and refused: what is expected is worked out in
// docs/examples.md.
use design::calls::{Gate, Input, Latch};
use design::couplings::Coupling;
use design::nodes::Node;
use judging::verdict::{Judgement, Verdict};
use kinds::arrival::Arrival;
use refusals::Refusal;
use rules::CouplingRule;
use rules::always::Always;
use rules::never::Never;
use rules::three_occurrences::ThreeOccurrences;
use schedule::Schedule;
use schedule::figures::Figures;
use states::{Draft, Sealed};
use std::test::Fail;
use timing::windows::Window;
use verifying::verify::verify;
use windows::flags::Flag;

// What stands in the rows of a table before a call, so that a row which is written shows.
const UNTOUCHED: Window = Window {
    begins: -7,
    ends: -7,
};

const UNSWEPT: Arrival = Arrival::At(-7);

// Two phases that start at 0 and 50 in a period of 100, open for 40.
fn clock() -> Figures {
    let mut starts = [0; 16];
    starts[1] = 50;
    Figures {
        period: 100,
        proximity: 0,
        count: 2,
        starts,
        widths: [40; 16],
    }
}

// A sealed table with its rows, of which each table has one more than are granted.
#[derive(Drop)]
struct Design {
    schedule: Schedule,
    nodes: [Node; 8],
    couplings: [Coupling; 3],
    book: Sealed,
}

// The tables that a judgement writes, with a row more than there are nodes and couplings.
#[derive(Drop)]
struct Written {
    flags: [Flag; 3],
    windows: [Window; 8],
    column: [Arrival; 8],
}

impl Written {
    fn blank() -> Written {
        Written {
            flags: [Flag::Set; 3],
            windows: [UNTOUCHED; 8],
            column: [UNSWEPT; 8],
        }
    }

    fn is_blank(&self) -> bool {
        self.flags == [Flag::Set; 3]
            && self.windows == [UNTOUCHED; 8]
            && self.column == [UNSWEPT; 8]
    }
}

impl Design {
    fn judge<R: CouplingRule>(
        &self,
        rule: &R,
        written: &mut Written,
    ) -> Result<Judgement, Refusal> {
        verify(
            &self.book,
            &self.schedule,
            &self.nodes,
            &self.couplings,
            rule,
            &mut written.flags,
            &mut written.windows,
            &mut written.column,
        )
    }
}

fn latch(phase: u8, hold: u32) -> Latch {
    Latch {
        phase,
        least: 2,
        greatest: 4,
        setup: 5,
        hold,
    }
}

fn gate(least: u32, greatest: u32, sources: &[u16; 1]) -> Gate<'_> {
    Gate {
        phase: 1,
        least,
        greatest,
        sources,
    }
}

// Latch 0 drives gates 2 and 3, gate 2 drives gate 4, which feeds latch 6, and latch 6 feeds latch 0. Input 1
// drives gate 5.
fn coupled(opposing: u32, hold: u32) -> Result<Design, Refusal> {
    let mut schedule = Schedule::blank();
    let mut nodes = [Node::Free; 8];
    let mut couplings = [Coupling::NONE; 3];
    let mut draft = Draft::open(&mut schedule, &nodes, &couplings, &clock())?;
    draft.latch(&schedule, &mut nodes, &couplings, latch(1, 3))?;
    let times = Input {
        phase: 1,
        earliest: 90,
        latest: 95,
    };
    draft.input(&schedule, &mut nodes, &couplings, times)?;
    draft.gate(&schedule, &mut nodes, &couplings, gate(10, 20, &[0]))?;
    draft.gate(&schedule, &mut nodes, &couplings, gate(10, 10, &[0]))?;
    draft.gate(&schedule, &mut nodes, &couplings, gate(5, 6, &[2]))?;
    draft.gate(&schedule, &mut nodes, &couplings, gate(10, 10, &[1]))?;
    draft.latch(&schedule, &mut nodes, &couplings, latch(2, hold))?;
    draft.feed(&schedule, &mut nodes, &couplings, 6, 4)?;
    draft.feed(&schedule, &mut nodes, &couplings, 0, 6)?;
    let first = Coupling {
        victim: 2,
        aggressor: 3,
        assisting: 5,
        opposing: 8,
    };
    draft.couple(&schedule, &nodes, &mut couplings, first)?;
    let second = Coupling {
        victim: 4,
        aggressor: 5,
        assisting: 2,
        opposing,
    };
    draft.couple(&schedule, &nodes, &mut couplings, second)?;
    match draft.seal(&schedule, &nodes, &couplings) {
        Ok(book) => Ok(Design {
            schedule,
            nodes,
            couplings,
            book,
        }),
        Err(refused) => Err(refused.refusal),
    }
}

fn window(begins: i64, ends: i64) -> Window {
    Window { begins, ends }
}

// The windows of the design: only those of gate 4 and latch 6 change with the couplings and their figures.
fn windows(fourth: Window, sixth: Window) -> [Window; 8] {
    [
        window(60, 60),
        window(90, 95),
        window(62, 64),
        window(62, 64),
        fourth,
        window(90, 95),
        sixth,
        UNTOUCHED,
    ]
}

#[test]
fn one_design_under_each_rule(rt: HostRuntime) -> Result<(), Fail> {
    let design = coupled(9, 3)?;
    let mut written = Written::blank();
    // Three occurrences: coupling 0 in the first round, coupling 1 in the second, and nothing in the third.
    let three = Judgement {
        verdict: Verdict::Pass,
        rounds: 3,
        flags: 2,
    };
    let judged = design.judge(&ThreeOccurrences, &mut written);
    assert_eq!(rt; judged, Ok(three));
    let disturbed = windows(window(67, 92), window(60, 60));
    assert!(rt; written.windows == disturbed);
    assert!(rt; written.flags == [Flag::Set; 3] && written.column[7] == UNSWEPT);
    // Always: both at once. What stood in the tables plays no part.
    let always = Judgement { rounds: 2, ..three };
    assert_eq!(rt; design.judge(&Always, &mut written), Ok(always));
    assert!(rt; written.windows == disturbed && written.flags == [Flag::Set; 3]);
    // Never: the first round is the last.
    let never = Judgement {
        verdict: Verdict::Pass,
        rounds: 1,
        flags: 0,
    };
    assert_eq!(rt; design.judge(&Never, &mut written), Ok(never));
    let quiet = windows(window(72, 84), window(60, 60));
    assert!(rt; written.windows == quiet);
    assert!(rt; written.flags == [Flag::Clear, Flag::Clear, Flag::Set]);
    Ok(())
}

#[test]
fn late_early_or_gain(rt: HostRuntime) -> Result<(), Fail> {
    let late = |excess| Verdict::Late { latch: 6, excess };
    let early = Verdict::Early {
        latch: 6,
        excess: 1,
    };
    for (opposing, hold, verdict, ends) in [
        (47, 3, Verdict::Pass, 95),
        (48, 3, late(1), 96),
        (58, 3, late(11), 106),
        (9, 20, Verdict::Pass, 60),
        (9, 21, early, 60),
    ] {
        let mut written = Written::blank();
        let judgement = Judgement {
            verdict,
            rounds: 3,
            flags: 2,
        };
        let judged = coupled(opposing, hold)?.judge(&ThreeOccurrences, &mut written);
        assert_eq!(rt; judged, Ok(judgement));
        assert!(rt; written.windows == windows(window(67, 92), window(60, ends)));
        assert!(rt; written.flags == [Flag::Set; 3]);
    }
    // The ring over latches 0 and 6 gains a tick each time round: the window table stays as it was.
    let mut written = Written::blank();
    let gain = Judgement {
        verdict: Verdict::Gain { latch: 0 },
        rounds: 3,
        flags: 2,
    };
    let judged = coupled(59, 3)?.judge(&ThreeOccurrences, &mut written);
    assert_eq!(rt; judged, Ok(gain));
    assert!(rt; written.windows == [UNTOUCHED; 8] && written.flags == [Flag::Set; 3]);
    // Without couplings it gains nothing.
    let quiet = coupled(59, 3)?.judge(&Never, &mut written);
    assert!(rt; quiet.is_ok_and(|judgement| judgement.verdict == Verdict::Pass));
    Ok(())
}

#[test]
fn short_tables(rt: HostRuntime) -> Result<(), Fail> {
    let Design {
        schedule,
        nodes,
        couplings,
        book,
    } = coupled(9, 3)?;
    let mut written = Written::blank();
    // Enough of every table but one: nodes, couplings, flags, windows and column.
    for (n, k, f, w, c) in [
        (6, 2, 2, 7, 7),
        (7, 1, 2, 7, 7),
        (7, 2, 1, 7, 7),
        (7, 2, 2, 6, 7),
        (7, 2, 2, 7, 6),
    ] {
        let judged = verify(
            &book,
            &schedule,
            &nodes[..n],
            &couplings[..k],
            &Always,
            &mut written.flags[..f],
            &mut written.windows[..w],
            &mut written.column[..c],
        );
        assert!(rt; judged.is_err_and(|refusal| u8::from(refusal) == 11));
        assert!(rt; written.is_blank());
    }
    // As many rows as are granted are enough.
    let judged = verify(
        &book,
        &schedule,
        &nodes[..7],
        &couplings[..2],
        &Always,
        &mut written.flags[..2],
        &mut written.windows[..7],
        &mut written.column[..7],
    );
    assert!(rt; judged.is_ok());
    Ok(())
}
