// A draft sealed, handed back and reopened; latches fed anew; rows that somebody else wrote.
use super::clocks::two_phases;
use design::calls::{Gate, Input, Latch};
use design::couplings::Coupling;
use design::nodes::Node;
use refusals::Refusal;
use schedule::Schedule;
use states::Draft;
use std::test::Fail;

const INPUT: Input = Input {
    phase: 2,
    earliest: 0,
    latest: 9,
};

const LATCH: Latch = Latch {
    phase: 1,
    least: 2,
    greatest: 4,
    setup: 5,
    hold: 3,
};

fn source_of(node: &Node) -> Option<u16> {
    match *node {
        Node::Latch { source, .. } => source,
        _ => None,
    }
}

#[test]
fn seal_hands_back_the_draft(rt: HostRuntime) -> Result<(), Fail> {
    let mut schedule = Schedule::blank();
    let mut nodes = [Node::Free; 2];
    let couplings = [Coupling::NONE; 0];
    let mut draft = Draft::open(&mut schedule, &nodes, &couplings, &two_phases())?;
    assert_eq!(rt;
        draft.latch(&schedule, &mut nodes, &couplings, LATCH),
        Ok(0)
    );
    let Err(back) = draft.seal(&schedule, &nodes, &couplings) else {
        return Err(Fail::new("not refused"));
    };
    assert_eq!(rt; back.refusal, Refusal::Unfed);
    let mut draft = back.book;
    assert_eq!(rt; draft.feed(&schedule, &mut nodes, &couplings, 0, 0), Ok(()));
    let Ok(sealed) = draft.seal(&schedule, &nodes, &couplings) else {
        return Err(Fail::new("not sealed"));
    };
    assert!(rt; sealed.counts().nodes == 1);
    Ok(())
}

#[test]
fn reopen_hands_back_the_sealed_table(rt: HostRuntime) -> Result<(), Fail> {
    let mut schedule = Schedule::blank();
    let mut nodes = [Node::Free; 1];
    let couplings = [Coupling::NONE; 0];
    let mut draft = Draft::open(&mut schedule, &nodes, &couplings, &two_phases())?;
    assert_eq!(rt;
        draft.input(&schedule, &mut nodes, &couplings, INPUT),
        Ok(0)
    );
    let Ok(sealed) = draft.seal(&schedule, &nodes, &couplings) else {
        return Err(Fail::new("not sealed"));
    };
    let none = [Node::Free; 0];
    let Err(back) = sealed.reopen(&schedule, &none, &couplings) else {
        return Err(Fail::new("not refused"));
    };
    assert_eq!(rt; back.refusal, Refusal::Short);
    let Ok(mut draft) = back.book.reopen(&schedule, &nodes, &couplings) else {
        return Err(Fail::new("not reopened"));
    };
    assert_eq!(rt;
        draft.input(&schedule, &mut nodes, &couplings, INPUT),
        Err(Refusal::Full)
    );
    Ok(())
}

#[test]
fn feed_replaces(rt: HostRuntime) -> Result<(), Fail> {
    let mut schedule = Schedule::blank();
    let mut nodes = [Node::Free; 3];
    let couplings = [Coupling::NONE; 0];
    let mut draft = Draft::open(&mut schedule, &nodes, &couplings, &two_phases())?;
    assert_eq!(rt;
        draft.latch(&schedule, &mut nodes, &couplings, LATCH),
        Ok(0)
    );
    assert_eq!(rt;
        draft.input(&schedule, &mut nodes, &couplings, INPUT),
        Ok(1)
    );
    assert_eq!(rt; draft.feed(&schedule, &mut nodes, &couplings, 0, 0), Ok(()));
    assert_eq!(rt; source_of(&nodes[0]), Some(0));
    assert_eq!(rt; draft.feed(&schedule, &mut nodes, &couplings, 0, 1), Ok(()));
    assert_eq!(rt; source_of(&nodes[0]), Some(1));
    Ok(())
}

// A draft of two latches.
fn two_latches(
    schedule: &mut Schedule,
    nodes: &mut [Node],
    couplings: &[Coupling],
) -> Result<Draft, Refusal> {
    let mut draft = Draft::open(schedule, nodes, couplings, &two_phases())?;
    draft.latch(schedule, nodes, couplings, LATCH)?;
    draft.latch(schedule, nodes, couplings, LATCH)?;
    Ok(draft)
}

#[test]
fn a_row_that_somebody_else_freed(rt: HostRuntime) -> Result<(), Fail> {
    let mut schedule = Schedule::blank();
    let mut nodes = [Node::Free; 4];
    let mut couplings = [Coupling::NONE; 1];
    let mut draft = two_latches(&mut schedule, &mut nodes, &couplings)?;
    nodes[1] = Node::Free;
    let gate = Gate {
        phase: 1,
        least: 2,
        greatest: 4,
        sources: &[1],
    };
    assert_eq!(rt;
        draft.feed(&schedule, &mut nodes, &couplings, 1, 0),
        Err(Refusal::Node)
    );
    assert_eq!(rt;
        draft.feed(&schedule, &mut nodes, &couplings, 0, 1),
        Err(Refusal::Node)
    );
    assert_eq!(rt;
        draft.gate(&schedule, &mut nodes, &couplings, gate),
        Err(Refusal::Node)
    );
    let coupling = Coupling {
        aggressor: 1,
        ..Coupling::NONE
    };
    assert_eq!(rt;
        draft.couple(&schedule, &nodes, &mut couplings, coupling),
        Err(Refusal::Node)
    );
    Ok(())
}

#[test]
fn tables_that_became_shorter(rt: HostRuntime) -> Result<(), Fail> {
    let mut schedule = Schedule::blank();
    let mut nodes = [Node::Free; 4];
    let couplings = [Coupling::NONE; 0];
    let mut draft = two_latches(&mut schedule, &mut nodes, &couplings)?;
    let mut few = [nodes[0]; 1];
    assert_eq!(rt;
        draft.feed(&schedule, &mut few, &couplings, 0, 1),
        Err(Refusal::Short)
    );
    assert_eq!(rt;
        draft.feed(&schedule, &mut few, &couplings, 1, 0),
        Err(Refusal::Short)
    );
    let mut enough = [nodes[0]; 2];
    assert_eq!(rt;
        draft.input(&schedule, &mut enough, &couplings, INPUT),
        Err(Refusal::Short)
    );
    assert_eq!(rt;
        draft.feed(&schedule, &mut enough, &couplings, 1, 0),
        Ok(())
    );
    Ok(())
}

#[test]
fn rows_past_the_granted_ones(rt: HostRuntime) -> Result<(), Fail> {
    let mut schedule = Schedule::blank();
    let mut nodes = [Node::Free; 4];
    let couplings = [Coupling::NONE; 0];
    let mut draft = two_latches(&mut schedule, &mut nodes, &couplings)?;
    nodes[3] = nodes[0];
    assert_eq!(rt;
        draft.feed(&schedule, &mut nodes, &couplings, 3, 0),
        Err(Refusal::Node)
    );
    assert_eq!(rt;
        draft.input(&schedule, &mut nodes, &couplings, INPUT),
        Ok(2)
    );
    assert!(rt; matches!(nodes[3], Node::Latch { .. }));
    assert!(rt; draft.counts().nodes == 3);
    Ok(())
}
