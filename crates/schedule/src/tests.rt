// Examples: the edges of each limit of a lawful clock, the shifts, and the refusals.
use super::Schedule;
use super::figures::Figures;
use refusals::Refusal;
use std::test::Fail;

// Whether the clock whose phases all have one start and one width is lawful.
fn is_lawful(period: u32, proximity: u32, count: u8, start: u32, width: u32) -> bool {
    let figures = Figures {
        period,
        proximity,
        count,
        starts: [start; 16],
        widths: [width; 16],
    };
    Schedule::new(&figures).is_ok()
}

// A clock of two phases, with other figures in the places past them.
fn two_phases(period: u32, first: u32, second: u32) -> Figures {
    let mut starts = [9; 16];
    starts[0] = first;
    starts[1] = second;
    Figures {
        period,
        proximity: 3,
        count: 2,
        starts,
        widths: [9; 16],
    }
}

#[test]
fn limits(rt: HostRuntime) {
    let cases = [
        (1, 0, 1, 0, 1, false),
        (2, 1, 1, 0, 1, true),
        (16_777_215, 0, 1, 0, 1, true),
        (16_777_216, 0, 1, 0, 1, false),
        (2, 2, 1, 0, 1, false),
        (2, 0, 0, 0, 1, false),
        (2, 0, 16, 1, 2, true),
        (2, 0, 17, 0, 1, false),
        (2, 0, 1, 2, 1, false),
        (2, 0, 1, 0, 0, false),
        (2, 0, 1, 0, 3, false),
    ];
    for (period, proximity, count, start, width, lawful) in cases {
        assert!(rt; is_lawful(period, proximity, count, start, width) == lawful);
    }
    assert!(rt;
        Schedule::new(&two_phases(100, 50, 49)).is_err(),
        "the starts fall"
    );
}

#[test]
fn shifts(rt: HostRuntime) -> Result<(), Fail> {
    let mut schedule = Schedule::new(&two_phases(100, 0, 50))?;
    assert_eq!(rt; schedule.forward_shift(1, 2), Ok(50));
    assert_eq!(rt; schedule.forward_shift(2, 2), Ok(100));
    assert_eq!(rt; schedule.nearest_shift(1, 2), Ok(50));
    assert_eq!(rt; schedule.nearest_shift(2, 1), Ok(-50));
    assert_eq!(rt; schedule.opening_edge(1), Ok(91));
    schedule.retime(&two_phases(101, 0, 51))?;
    assert_eq!(rt; schedule.nearest_shift(1, 2), Ok(-50));
    Ok(())
}

#[test]
fn refusals(rt: HostRuntime) -> Result<(), Fail> {
    let mut schedule = Schedule::new(&two_phases(100, 0, 50))?;
    for phase in [0, 3] {
        assert_eq!(rt; schedule.forward_shift(phase, 1), Err(Refusal::Phase));
        assert_eq!(rt; schedule.nearest_shift(1, phase), Err(Refusal::Phase));
        assert_eq!(rt; schedule.opening_edge(phase), Err(Refusal::Phase));
    }
    let single = Figures {
        count: 1,
        ..two_phases(40, 0, 0)
    };
    assert_eq!(rt; schedule.retime(&single), Err(Refusal::Clock));
    assert!(rt; schedule.period() == 100 && schedule.proximity() == 3 && schedule.phases() == 2);
    Ok(())
}

#[test]
fn spare_places(rt: HostRuntime) -> Result<(), Fail> {
    let schedule = Schedule::new(&two_phases(100, 0, 50))?;
    assert!(rt; schedule.starts[2] == 0 && schedule.widths[15] == 0);
    Ok(())
}
