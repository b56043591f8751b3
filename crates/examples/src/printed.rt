// A text printed, one printed with rows overwritten by some that no book grants, and a buffer that is a byte short.
use printing::output::{output, output_overwritten};
use printing::room::room_for;
use refusals::Refusal;

// An input and a latch that it feeds, sealed and judged.
const TEXT: &[u8; 130] =
    b"0100000064000000000200000000000000280000003200000028\n0202000000460000004B\n040100000002000000040000000500000003\n0500010000\n08\n0701\n";

// Where the line of the verify begins.
const JUDGED_FROM: usize = 125;

const PRINTED: &[u8; 120] =
    b"00\n000000\n000001\n00\n00\n00FFFF000000000000000000010000\n0000000000000046000000000000004B\n000000000000003C000000000000003C\n";

// How much room the text has: five answers of seven bytes, and the report of a verdict.
const ROOM: usize = 138_306;

#[test]
fn example(rt: HostRuntime) {
    let mut out = [b'-'; ROOM];
    assert_eq!(rt; room_for(TEXT), ROOM);
    assert_eq!(rt; output(TEXT, &mut out), Ok(120));
    assert!(rt; out.starts_with(PRINTED));
    assert_eq!(rt; out[120], b'-');
}

#[test]
fn a_byte_short(rt: HostRuntime) {
    let mut out = [b'-'; ROOM];
    assert_eq!(rt; output(TEXT, &mut out[1..]), Err(Refusal::Short));
    assert_eq!(rt; out[1], b'-');
}

// A gate that counts 200 sources, the first of them past the table, and a latch of no phase that feeds itself: a verify of
// them ends and is answered.
#[test]
fn overwritten(rt: HostRuntime) {
    let records = [
        2, 0, 0, 255, 0, 0, 0, 9, 255, 255, 255, 255, 255, 255, 0, 1, 0, 0, 0, 1, 0, 200, //
        4, 0, 1, 0, 255, 255, 255, 255, 0, 0, 0, 0, 0, 0, 0, 1, 0, 0, 0, 1, 0, 1,
    ];
    let mut out = [b'-'; ROOM];
    let printed = output_overwritten(TEXT, JUDGED_FROM, &records, &mut out);
    assert!(rt; printed.is_ok_and(|count| 54 <= count));
    assert!(rt; out.starts_with(b"00\n000000\n000001\n00\n00\n"));
}
