// Small designs worked out by hand: windows under couplings, rings of latches, late and early latches, refusals, rows that
// somebody else wrote.
use design::calls::{Gate, Input, Latch};
use design::couplings::Coupling;
use design::nodes::{Node, Sources};
use kinds::arrival::Arrival;
use refusals::Refusal;
use schedule::Schedule;
use schedule::figures::Figures;
use states::Draft;
use std::test::Fail;
use timing::windows::Window;
use windows::calls::{earliest_arrivals, latest_arrivals, windows};
use windows::checked::{Breach, Checked};
use windows::edges::{is_early, is_late};
use windows::flags::Flag;
use windows::found::{Ends, LatestSweeps};

// What stands in the rows of a table before a call, so that a row which is written shows.
const UNTOUCHED: Window = Window {
    begins: -7,
    ends: -7,
};

const UNSWEPT: Arrival = Arrival::At(-7);

// What is answered where every window has an end and no latch is late or early.
const KEPT: Checked = Checked::Ended {
    late: None,
    early: None,
};

// Two phases that start at 0 and 50 in a period of 100, open for 40, so that each opening edge is 60. A connection to a
// latch of the other phase shifts by 50, and to one of the same phase by 100.
fn clock() -> Figures {
    let mut starts = [0; 16];
    starts[1] = 50;
    Figures {
        period: 100,
        proximity: 0,
        count: 2,
        starts,
        widths: [40; 16],
    }
}

// A draft with its tables. There are more rows than any design below has nodes, so that a write past the last shows.
#[derive(Drop)]
struct Design {
    schedule: Schedule,
    nodes: [Node; 9],
    couplings: [Coupling; 2],
    draft: Draft,
}

impl Design {
    fn empty() -> Result<Design, Refusal> {
        let mut schedule = Schedule::blank();
        let nodes = [Node::Free; 9];
        let couplings = [Coupling::NONE; 2];
        let draft = Draft::open(&mut schedule, &nodes, &couplings, &clock())?;
        Ok(Design {
            schedule,
            nodes,
            couplings,
            draft,
        })
    }

    fn input(&mut self, earliest: u32, latest: u32) -> Result<u16, Refusal> {
        self.draft.input(
            &self.schedule,
            &mut self.nodes,
            &self.couplings,
            Input {
                phase: 1,
                earliest,
                latest,
            },
        )
    }

    fn gate(&mut self, phase: u8, least: u32, greatest: u32, source: u16) -> Result<u16, Refusal> {
        self.draft.gate(
            &self.schedule,
            &mut self.nodes,
            &self.couplings,
            Gate {
                phase,
                least,
                greatest,
                sources: &[source],
            },
        )
    }

    fn latch(&mut self, phase: u8, greatest: u32) -> Result<u16, Refusal> {
        self.draft.latch(
            &self.schedule,
            &mut self.nodes,
            &self.couplings,
            Latch {
                phase,
                least: 2,
                greatest,
                setup: 5,
                hold: 3,
            },
        )
    }

    fn feed(&mut self, latch: u16, source: u16) -> Result<(), Refusal> {
        self.draft.feed(
            &self.schedule,
            &mut self.nodes,
            &self.couplings,
            latch,
            source,
        )
    }

    fn couple(&mut self, coupling: Coupling) -> Result<u16, Refusal> {
        self.draft
            .couple(&self.schedule, &self.nodes, &mut self.couplings, coupling)
    }

    fn windows(
        &self,
        flags: &[Flag],
        table: &mut [Window],
        column: &mut [Arrival],
    ) -> Result<Checked, Refusal> {
        windows(
            &self.draft,
            &self.schedule,
            &self.nodes,
            &self.couplings,
            flags,
            table,
            column,
        )
    }

    fn latest(&self, flags: &[Flag], column: &mut [Arrival]) -> Result<LatestSweeps, Refusal> {
        latest_arrivals(
            &self.draft,
            &self.schedule,
            &self.nodes,
            &self.couplings,
            flags,
            column,
        )
    }

    fn earliest(&self, flags: &[Flag], column: &mut [Arrival]) -> Result<(), Refusal> {
        earliest_arrivals(
            &self.draft,
            &self.schedule,
            &self.nodes,
            &self.couplings,
            flags,
            column,
        )
    }
}

// Two latches, and between them gates and an input that couplings disturb: latch 0 drives gate 2 and gate 3, gate 2
// drives gate 4, and gate 4 feeds latch 6, which feeds latch 0. Input 1 drives gate 5.
fn coupled() -> Result<Design, Refusal> {
    let mut design = Design::empty()?;
    design.latch(1, 4)?;
    design.input(90, 95)?;
    design.gate(1, 10, 20, 0)?;
    design.gate(1, 10, 10, 0)?;
    design.gate(1, 5, 6, 2)?;
    design.gate(1, 10, 10, 1)?;
    design.latch(2, 4)?;
    design.feed(6, 4)?;
    design.feed(0, 6)?;
    design.couple(Coupling {
        victim: 2,
        aggressor: 3,
        assisting: 5,
        opposing: 8,
    })?;
    design.couple(Coupling {
        victim: 4,
        aggressor: 5,
        assisting: 2,
        opposing: 9,
    })?;
    Ok(design)
}

// Latch 0 drives gate 1, which feeds latch 2, which feeds latch 0. From latch 0 to latch 2 a path gains 4 + 90 - 50 = 44,
// and back it gains the greatest delay of latch 2 less 50, so that with 6 it gains nothing round the ring.
fn ring(greatest: u32) -> Result<Design, Refusal> {
    let mut design = Design::empty()?;
    design.latch(1, 4)?;
    design.gate(1, 10, 90, 0)?;
    design.latch(2, greatest)?;
    design.feed(2, 1)?;
    design.feed(0, 2)?;
    Ok(design)
}

// Latches 1 and 3 are in a ring that gains 1 a round, by gate 2. Latch 0 is behind it: latch 3 drives gate 4, which feeds
// latch 0.
fn behind_ring() -> Result<Design, Refusal> {
    let mut design = Design::empty()?;
    design.latch(2, 4)?;
    design.latch(1, 4)?;
    design.gate(1, 10, 90, 1)?;
    design.latch(2, 7)?;
    design.gate(2, 0, 0, 3)?;
    design.feed(3, 2)?;
    design.feed(1, 3)?;
    design.feed(0, 4)?;
    Ok(design)
}

fn window(begins: i64, ends: i64) -> Window {
    Window { begins, ends }
}

// The windows of the design of two latches, of which only that of gate 4 changes with the couplings. Both latches stay at
// their opening edge, 60, and the input at its times. Gates 2 and 3 switch when latch 0 has passed, from 60 + 2 to
// 60 + 4, and gate 5 with the input.
fn coupled_windows(fourth: Window) -> [Window; 9] {
    [
        window(60, 60),
        window(90, 95),
        window(62, 64),
        window(62, 64),
        fourth,
        window(90, 95),
        window(60, 60),
        UNTOUCHED,
        UNTOUCHED,
    ]
}

#[test]
fn windows_under_couplings(rt: HostRuntime) -> Result<(), Fail> {
    let design = coupled()?;
    let mut table = [UNTOUCHED; 9];
    let mut column = [UNSWEPT; 9];
    // Gate 4 switches from 62 + 10 to 64 + 20.
    let none = [Flag::Clear; 2];
    assert_eq!(rt; design.windows(&none, &mut table, &mut column), Ok(KEPT));
    assert!(rt; table == coupled_windows(window(72, 84)));
    // With the first coupling the least delay of gate 2 is 10 - 5 and the greatest 20 + 8: from 62 + 5 to 64 + 28. The
    // second disturbs gate 4 itself, and shows only behind it.
    let both = [Flag::Set; 2];
    assert_eq!(rt; design.windows(&both, &mut table, &mut column), Ok(KEPT));
    assert!(rt; table == coupled_windows(window(67, 92)));
    // A sealed table has the same windows as its draft.
    let Design {
        schedule,
        nodes,
        couplings,
        draft,
    } = design;
    let Ok(sealed) = draft.seal(&schedule, &nodes, &couplings) else {
        return Err(Fail::new("not sealed"));
    };
    assert_eq!(rt;
        windows(
            &sealed,
            &schedule,
            &nodes,
            &couplings,
            &none,
            &mut table,
            &mut column
        ),
        Ok(KEPT)
    );
    assert!(rt; table == coupled_windows(window(72, 84)));
    Ok(())
}

#[test]
fn arrivals_under_couplings(rt: HostRuntime) -> Result<(), Fail> {
    let design = coupled()?;
    let mut column = [UNSWEPT; 9];
    // At latch 0 comes what leaves latch 6 at 60, by 60 + 4 - 50 at the latest and 60 + 2 - 50 at the earliest. At latch 6
    // comes what leaves gate 4: without couplings by 84 + 6 - 50 and 72 + 5 - 50, with both by 92 + 6 + 9 - 50 and
    // 67 + 5 - 2 - 50. No latch gets more than its opening edge, so that one sweep is enough.
    let found = LatestSweeps {
        ends: Ends::All,
        sweeps: 1,
    };
    for (flags, fourth, latest, earliest) in [
        ([Flag::Clear, Flag::Clear], window(72, 84), 40, 27),
        ([Flag::Set, Flag::Clear], window(67, 92), 48, 22),
        ([Flag::Set, Flag::Set], window(67, 92), 57, 20),
    ] {
        assert_eq!(rt; design.latest(&flags, &mut column), Ok(found));
        let ticks = [14, 95, 64, 64, fourth.ends, 95, latest, -7, -7];
        for (place, tick) in ticks.iter().enumerate() {
            assert!(rt; column[place] == Arrival::At(*tick));
        }
        assert_eq!(rt; design.earliest(&flags, &mut column), Ok(()));
        let ticks = [12, 90, 62, 62, fourth.begins, 90, earliest, -7, -7];
        for (place, tick) in ticks.iter().enumerate() {
            assert!(rt; column[place] == Arrival::At(*tick));
        }
    }
    Ok(())
}

#[test]
fn rings(rt: HostRuntime) -> Result<(), Fail> {
    let flags = [Flag::Set; 0];
    // A ring that gains nothing: latch 2 climbs to 60 + 44 in the first sweep, and in the second what comes back to latch 0
    // is 104 + 6 - 50, its opening edge.
    let settles = ring(6)?;
    let mut table = [UNTOUCHED; 4];
    let mut column = [UNSWEPT; 4];
    let found = LatestSweeps {
        ends: Ends::All,
        sweeps: 2,
    };
    assert_eq!(rt; settles.latest(&flags, &mut column), Ok(found));
    assert!(rt; column == [Arrival::At(60), Arrival::At(64), Arrival::At(104), UNSWEPT]);
    // That is 104 - 95 after the late bound of latch 2.
    assert_eq!(rt;
        settles.windows(&flags, &mut table, &mut column),
        Ok(Checked::Ended {
            late: Some(Breach {
                latch: 2,
                excess: 9
            }),
            early: None,
        })
    );
    assert!(rt; table == [window(60, 60), window(62, 64), window(60, 104), UNTOUCHED]);
    // A ring that gains 1 a round: latch 2 climbs to 104, latch 0 to 61, and in the third sweep, one more than there are
    // latches, latch 2 climbs again. It is given no end, then latch 0 behind it, and the fifth sweep finds nothing more.
    let grows = ring(7)?;
    let mut table = [UNTOUCHED; 4];
    let ends = Ends::NoneAt { latch: 0 };
    let endless = Ok(Checked::NoEnd { latch: 0 });
    assert_eq!(rt; grows.windows(&flags, &mut table, &mut column), endless);
    assert!(rt; table == [UNTOUCHED; 4]);
    assert_eq!(rt;
        grows.latest(&flags, &mut column),
        Ok(LatestSweeps { ends, sweeps: 5 })
    );
    assert!(rt; column == [Arrival::NoEnd, Arrival::NoEnd, Arrival::NoEnd, UNSWEPT]);
    Ok(())
}

#[test]
fn latches_behind_a_growing_ring(rt: HostRuntime) -> Result<(), Fail> {
    let mut design = behind_ring()?;
    let flags = [Flag::Set; 0];
    let mut table = [UNTOUCHED; 5];
    let mut column = [UNSWEPT; 5];
    // While the ring climbs by 1 a round from 104, what comes to latch 0 is about 104 + 7 + 0 - 100, far before its
    // opening edge. Latches 3, 1 and 3 climb in three sweeps, latches 1, 3 and 0 are given no end in three more, and the
    // seventh finds nothing.
    let ends = Ends::NoneAt { latch: 0 };
    let endless = Ok(Checked::NoEnd { latch: 0 });
    assert_eq!(rt; design.windows(&flags, &mut table, &mut column), endless);
    assert!(rt; table == [UNTOUCHED; 5]);
    assert_eq!(rt;
        design.latest(&flags, &mut column),
        Ok(LatestSweeps { ends, sweeps: 7 })
    );
    // Fed from itself, latch 0 is no longer behind the ring. Its own ring gains 4 - 100.
    design.feed(0, 0)?;
    let ends = Ends::NoneAt { latch: 1 };
    let endless = Ok(Checked::NoEnd { latch: 1 });
    assert_eq!(rt; design.windows(&flags, &mut table, &mut column), endless);
    assert!(rt; table == [UNTOUCHED; 5]);
    assert_eq!(rt;
        design.latest(&flags, &mut column),
        Ok(LatestSweeps { ends, sweeps: 6 })
    );
    assert!(rt; column[0] == Arrival::At(-36) && column[4] == Arrival::NoEnd);
    Ok(())
}

// Input 0 feeds latch 1 of its own phase, and latch 2 of the other, and drives gate 3, which feeds latch 4 of the other.
fn far_apart() -> Result<Design, Refusal> {
    let mut design = Design::empty()?;
    design.input(40, 150)?;
    design.latch(1, 4)?;
    design.latch(2, 4)?;
    design.gate(1, 10, 20, 0)?;
    design.latch(2, 4)?;
    design.feed(1, 0)?;
    design.feed(2, 0)?;
    design.feed(4, 3)?;
    Ok(design)
}

#[test]
fn lowest_late_and_lowest_early_latch(rt: HostRuntime) -> Result<(), Fail> {
    let design = far_apart()?;
    let flags = [Flag::Set; 0];
    let mut table = [UNTOUCHED; 6];
    let mut column = [UNSWEPT; 6];
    // At latch 1 arrives 40 - 100 to 150 - 100, at latch 2 40 - 50 to 150 - 50, and at latch 4 40 + 10 - 50 to
    // 150 + 20 - 50. All three are early, before 3, and the last two are late, after 95.
    assert_eq!(rt;
        design.windows(&flags, &mut table, &mut column),
        Ok(Checked::Ended {
            late: Some(Breach {
                latch: 2,
                excess: 5
            }),
            early: Some(Breach {
                latch: 1,
                excess: 63
            }),
        })
    );
    assert!(rt;
        table
            == [
                window(40, 150),
                window(60, 60),
                window(60, 100),
                window(40, 150),
                window(60, 120),
                UNTOUCHED
            ]
    );
    Ok(())
}

// How many rows of each table are lent.
#[derive(Clone, Copy)]
struct Lent {
    nodes: usize,
    couplings: usize,
    flags: usize,
    windows: usize,
    column: usize,
}

// Exactly the rows that the design of two latches needs.
const ENOUGH: Lent = Lent {
    nodes: 7,
    couplings: 2,
    flags: 2,
    windows: 7,
    column: 7,
};

// The first rows of a table, or all where it has fewer.
fn first<T>(rows: &[T], count: usize) -> &[T] {
    rows.get(..count).unwrap_or(rows)
}

// Whether the calls are refused as short where so many rows are lent, and then write nothing.
fn is_refused(design: &Design, lent: Lent) -> bool {
    let nodes = first(&design.nodes, lent.nodes);
    let couplings = first(&design.couplings, lent.couplings);
    let flags = [Flag::Set; 2];
    let flags = first(&flags, lent.flags);
    let mut table = [UNTOUCHED; 7];
    let mut column = [UNSWEPT; 7];
    let short = windows(
        &design.draft,
        &design.schedule,
        nodes,
        couplings,
        flags,
        &mut table[..lent.windows.min(7)],
        &mut column[..lent.column.min(7)],
    );
    short == Err(Refusal::Short) && table == [UNTOUCHED; 7] && column == [UNSWEPT; 7]
}

#[test]
fn tables_that_are_short(rt: HostRuntime) -> Result<(), Fail> {
    let design = coupled()?;
    assert!(rt; !is_refused(&design, ENOUGH));
    assert!(rt; is_refused(&design, Lent { nodes: 6, ..ENOUGH }));
    assert!(rt;
        is_refused(
            &design,
            Lent {
                couplings: 1,
                ..ENOUGH
            }
        )
    );
    assert!(rt; is_refused(&design, Lent { flags: 1, ..ENOUGH }));
    assert!(rt;
        is_refused(
            &design,
            Lent {
                windows: 6,
                ..ENOUGH
            }
        )
    );
    assert!(rt;
        is_refused(
            &design,
            Lent {
                column: 6,
                ..ENOUGH
            }
        )
    );
    let mut column = [UNSWEPT; 7];
    let flags = [Flag::Set; 2];
    assert_eq!(rt;
        design.latest(&flags, &mut column[..6]),
        Err(Refusal::Short)
    );
    assert_eq!(rt;
        design.latest(&flags[..1], &mut column),
        Err(Refusal::Short)
    );
    assert_eq!(rt;
        design.earliest(&flags, &mut column[..6]),
        Err(Refusal::Short)
    );
    assert_eq!(rt;
        design.earliest(&flags[..1], &mut column),
        Err(Refusal::Short)
    );
    assert!(rt; column == [UNSWEPT; 7]);
    Ok(())
}

// A latch with the greatest figures that a row can hold.
fn extreme_latch(source: u16) -> Node {
    Node::Latch {
        phase: 255,
        least: u32::MAX,
        greatest: u32::MAX,
        setup: u32::MAX,
        hold: u32::MAX,
        source: Some(source),
    }
}

// A gate with more sources than it has places for.
fn extreme_gate(phase: u8, nodes: [u16; 4]) -> Node {
    Node::Gate {
        phase,
        least: u32::MAX,
        greatest: u32::MAX,
        sources: Sources { count: 255, nodes },
    }
}

#[test]
fn rows_that_somebody_else_wrote(rt: HostRuntime) -> Result<(), Fail> {
    let mut design = coupled()?;
    // Latches fed from themselves and from rows that are not there or not granted, and gates that drive each other.
    design.nodes = [
        extreme_latch(65_535),
        Node::Input {
            phase: 0,
            earliest: u32::MAX,
            latest: 0,
        },
        extreme_gate(2, [3, 2, 65_535, 8]),
        extreme_gate(0, [2, 0, 1, 7]),
        Node::Free,
        extreme_latch(5),
        extreme_latch(3),
        extreme_gate(1, [7, 7, 7, 7]),
        extreme_latch(8),
    ];
    let coupling = Coupling {
        victim: 3,
        aggressor: 3,
        assisting: u32::MAX,
        opposing: u32::MAX,
    };
    design.couplings = [
        coupling,
        Coupling {
            victim: 65_535,
            ..coupling
        },
    ];
    let flags = [Flag::Set; 3];
    let mut table = [UNTOUCHED; 9];
    let mut column = [UNSWEPT; 9];
    assert!(rt; design.windows(&flags, &mut table, &mut column).is_ok());
    assert!(rt; table[7..] == [UNTOUCHED; 2] && column[7..] == [UNSWEPT; 2]);
    assert!(rt; design.latest(&flags, &mut column).is_ok());
    assert!(rt; design.earliest(&flags, &mut column).is_ok());
    assert!(rt; column[7..] == [UNSWEPT; 2]);
    Ok(())
}

#[test]
fn late_and_early_at_their_bounds(rt: HostRuntime) -> Result<(), Fail> {
    let design = coupled()?;
    let latch = design.nodes[0];
    let schedule = &design.schedule;
    // A setup of 5 before the close at 100, and a hold of 3.
    for (tick, late) in [(94, false), (95, false), (96, true)] {
        assert!(rt; is_late(schedule, &latch, Arrival::At(tick)) == late);
    }
    for (tick, early) in [(2, true), (3, false), (4, false)] {
        assert!(rt; is_early(&latch, Arrival::At(tick)) == early);
    }
    assert!(rt; is_late(schedule, &latch, Arrival::NoEnd) && !is_early(&latch, Arrival::NoEnd));
    assert!(rt; !is_late(schedule, &latch, Arrival::NoPath) && !is_early(&latch, Arrival::NoPath));
    let gate = design.nodes[2];
    assert!(rt; !is_late(schedule, &gate, Arrival::At(96)) && !is_early(&gate, Arrival::At(2)));
    Ok(())
}
