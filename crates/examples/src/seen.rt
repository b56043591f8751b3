// Examples: the occurrences before and after the nearest one, windows at the ends of 64 bits, and the rules by name.
use frames::rules::Rule;
use refusals::Refusal;
use rules::CouplingRule;
use rules::always::Always;
use rules::never::Never;
use rules::three_occurrences::ThreeOccurrences;
use rules::wire::Wire;
use schedule::Schedule;
use schedule::figures::Figures;
use std::test::Fail;
use timing::windows::Window;

// A clock of period 100 with two phases, which start at 0 and at 60 and are open for 40.
fn two_phases(proximity: u32) -> Result<Schedule, Refusal> {
    let mut starts = [0; 16];
    starts[1] = 60;
    Schedule::new(&Figures {
        period: 100,
        proximity,
        count: 2,
        starts,
        widths: [40; 16],
    })
}

fn wire(node: u16, phase: u8, begins: i64, ends: i64) -> Wire {
    Wire {
        node,
        phase,
        window: Window { begins, ends },
    }
}

#[test]
fn previous(rt: HostRuntime) -> Result<(), Fail> {
    let aggressor = wire(1, 1, 60, 62);
    let apart = two_phases(0)?;
    assert!(rt; ThreeOccurrences.sees(&apart, &wire(0, 2, 1, 3), &aggressor));
    assert!(rt; ThreeOccurrences.sees(&apart, &wire(0, 2, 2, 3), &aggressor));
    assert!(rt; !ThreeOccurrences.sees(&apart, &wire(0, 2, 3, 3), &aggressor));
    let near = two_phases(8)?;
    assert!(rt;
        !ThreeOccurrences.sees(&near, &wire(0, 2, 10, 12), &aggressor),
        "it begins after the aggressor ended, by the forward shift"
    );
    Ok(())
}

#[test]
fn following(rt: HostRuntime) -> Result<(), Fail> {
    let schedule = two_phases(0)?;
    let aggressor = wire(1, 2, 30, 32);
    assert!(rt; ThreeOccurrences.sees(&schedule, &wire(0, 1, 91, 95), &aggressor));
    assert!(rt; ThreeOccurrences.sees(&schedule, &wire(0, 1, 80, 90), &aggressor));
    assert!(rt; !ThreeOccurrences.sees(&schedule, &wire(0, 1, 80, 89), &aggressor));
    Ok(())
}

#[test]
fn one_phase(rt: HostRuntime) -> Result<(), Fail> {
    let victim = wire(0, 1, 0, 5);
    let apart = two_phases(0)?;
    assert!(rt; ThreeOccurrences.sees(&apart, &victim, &wire(1, 1, 5, 9)));
    assert!(rt; !ThreeOccurrences.sees(&apart, &victim, &wire(1, 1, 6, 9)));
    assert!(rt;
        !ThreeOccurrences.sees(&apart, &victim, &wire(1, 1, 100, 105)),
        "windows of one phase are compared as they stand"
    );
    let near = two_phases(1)?;
    assert!(rt; ThreeOccurrences.sees(&near, &victim, &wire(1, 1, 6, 9)));
    Ok(())
}

#[test]
fn extremes(rt: HostRuntime) -> Result<(), Fail> {
    let schedule = two_phases(99)?;
    for (victim, aggressor) in [(0, 200), (200, 0), (1, 2), (2, 1), (1, 1)] {
        let whole = wire(0, victim, i64::MIN, i64::MAX);
        let first = wire(1, aggressor, i64::MIN, i64::MIN);
        let last = wire(1, aggressor, i64::MAX, i64::MAX);
        assert!(rt; ThreeOccurrences.sees(&schedule, &whole, &first));
        assert!(rt; ThreeOccurrences.sees(&schedule, &whole, &last));
        assert!(rt; !ThreeOccurrences.sees(&schedule, &first, &last));
    }
    Ok(())
}

#[test]
fn named(rt: HostRuntime) -> Result<(), Fail> {
    let schedule = two_phases(0)?;
    let victim = wire(0, 1, 0, 5);
    let close = wire(1, 1, 5, 9);
    let far = wire(1, 1, 6, 9);
    assert!(rt; !Never.sees(&schedule, &victim, &close));
    assert!(rt; Always.sees(&schedule, &victim, &far));
    assert!(rt; !Rule::Never.sees(&schedule, &victim, &close));
    assert!(rt; Rule::ThreeOccurrences.sees(&schedule, &victim, &close));
    assert!(rt; !Rule::ThreeOccurrences.sees(&schedule, &victim, &far));
    assert!(rt; Rule::Always.sees(&schedule, &victim, &far));
    Ok(())
}
