// Examples: a frame of each kind read and written, bytes that are no frame, and frames that are not written.
use frames::Frame;
use frames::read::read;
use frames::rules::Rule;
use frames::write::write;
use refusals::Refusal;
use std::test::Fail;

const SCHEDULE: [u8; 18] = [1, 0, 0, 1, 2, 0, 0, 0, 3, 1, 11, 12, 13, 14, 15, 16, 17, 18];

const INPUT: [u8; 10] = [2, 4, 0, 1, 0, 0, 0, 0, 0, 5];

const GATE: [u8; 13] = [3, 1, 0, 0, 0, 2, 0, 0, 3, 0, 1, 21, 22];

const LATCH: [u8; 18] = [4, 2, 1, 0, 0, 0, 0, 0, 0, 4, 0, 0, 0, 5, 0, 0, 0, 6];

const FEED: [u8; 5] = [5, 1, 2, 0, 3];

const COUPLE: [u8; 13] = [6, 0, 1, 2, 0, 0, 0, 0, 3, 0, 0, 0, 4];

// Whether a frame is written as these bytes, and the byte past them is left as it was.
fn is_written_as(frame: &Frame<'_>, bytes: &[u8]) -> bool {
    let mut out = [7; 20];
    write(frame, &mut out).is_ok_and(|count| count < 20
        && &out[..count] == bytes
        && out[count] == 7)
}

// Whether bytes are read as a frame.
fn is_frame(bytes: &[u8]) -> bool {
    read(bytes).is_ok()
}

#[test]
fn each_kind(rt: HostRuntime) -> Result<(), Fail> {
    let cases = [
        (
            Frame::Schedule {
                period: 258,
                proximity: 3,
                count: 1,
                phases: &[11, 12, 13, 14, 15, 16, 17, 18],
            },
            &SCHEDULE[..],
        ),
        (
            Frame::Input {
                phase: 4,
                earliest: 65_536,
                latest: 5,
            },
            &INPUT,
        ),
        (
            Frame::Gate {
                phase: 1,
                least: 2,
                greatest: 768,
                count: 1,
                sources: &[21, 22],
            },
            &GATE,
        ),
        (
            Frame::Latch {
                phase: 2,
                least: 16_777_216,
                greatest: 4,
                setup: 5,
                hold: 6,
            },
            &LATCH,
        ),
        (
            Frame::Feed {
                latch: 258,
                source: 3,
            },
            &FEED,
        ),
        (
            Frame::Couple {
                victim: 1,
                aggressor: 512,
                assisting: 3,
                opposing: 4,
            },
            &COUPLE,
        ),
        (Frame::Verify { rule: Rule::Never }, &[7, 0]),
        (
            Frame::Verify {
                rule: Rule::ThreeOccurrences,
            },
            &[7, 1],
        ),
        (Frame::Verify { rule: Rule::Always }, &[7, 2]),
        (Frame::Seal, &[8]),
        (Frame::Reopen, &[9]),
    ];
    for (frame, bytes) in cases {
        assert!(rt; is_written_as(&frame, bytes), "written");
        assert!(rt;
            is_written_as(&read(bytes)?, bytes),
            "read and written again"
        );
    }
    Ok(())
}

#[test]
fn fields_read(rt: HostRuntime) -> Result<(), Fail> {
    let Frame::Gate {
        phase,
        least,
        greatest,
        count,
        sources,
    } = read(&GATE)?
    else {
        return Err(Fail::new("no gate"));
    };
    assert!(rt;
        phase == 1 && least == 2 && greatest == 768 && count == 1 && sources == &GATE[11..]
    );
    let Frame::Feed { latch, source } = read(&FEED)? else {
        return Err(Fail::new("no feed"));
    };
    assert!(rt; latch == 258 && source == 3);
    Ok(())
}

#[test]
fn lengths(rt: HostRuntime) {
    let cases = [
        (1, 10),
        (2, 10),
        (3, 11),
        (4, 18),
        (5, 5),
        (6, 13),
        (7, 2),
        (8, 1),
        (9, 1),
    ];
    for (kind, length) in cases {
        let mut bytes = [0; 19];
        bytes[0] = kind;
        assert!(rt; 0 < length && length < 19);
        assert!(rt;
            !is_frame(&bytes[..length - 1])
                && is_frame(&bytes[..length])
                && !is_frame(&bytes[..length + 1])
        );
    }
}

#[test]
fn counts(rt: HostRuntime) {
    let mut schedule = [0; 146];
    schedule[0] = 1;
    schedule[9] = 17;
    assert!(rt; is_frame(&schedule) && !is_frame(&schedule[..145]));
    let mut gate = [0; 21];
    gate[0] = 3;
    gate[10] = 5;
    assert!(rt; is_frame(&gate) && !is_frame(&gate[..20]));
}

#[test]
fn no_frames(rt: HostRuntime) {
    for bytes in [&[][..], &[0], &[10], &[7, 3]] {
        assert!(rt; !is_frame(bytes));
    }
}

#[test]
fn not_written(rt: HostRuntime) -> Result<(), Fail> {
    let mut out = [7; 12];
    let two = Frame::Gate {
        phase: 1,
        least: 2,
        greatest: 3,
        count: 2,
        sources: &[0, 1],
    };
    assert_eq!(rt;
        write(&two, &mut out),
        Err(Refusal::Frame),
        "one source where there are two"
    );
    assert_eq!(rt; write(&read(&GATE)?, &mut out), Err(Refusal::Short));
    assert_eq!(rt; out, [7; 12]);
    Ok(())
}
