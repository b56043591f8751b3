// Examples: the lines of small texts, lines that decode and lines that do not, the digits of a byte, and lines written.
use refusals::Refusal;
use text::digits::{LONGEST, Undecoded, decode, digits_of};
use text::lines::Lines;
use text::spelling::spell_line;

// Whether a text has a line of this number and these bytes next.
fn next_is(lines: &mut Lines<'_>, number: usize, bytes: &[u8]) -> bool {
    lines
        .next()
        .is_some_and(|line| line.number == number && line.bytes == bytes)
}

#[test]
fn lines(rt: HostRuntime) {
    assert!(rt; Lines::new(b"").next().is_none());
    for text in [&b"A"[..], b"A\n"] {
        let mut lines = Lines::new(text);
        assert!(rt; next_is(&mut lines, 1, b"A"));
        assert!(rt; lines.next().is_none());
    }
    let mut lines = Lines::new(b"\n");
    assert!(rt; next_is(&mut lines, 1, b""));
    assert!(rt; lines.next().is_none());
    let mut lines = Lines::new(b"A\n\nB");
    assert!(rt; next_is(&mut lines, 1, b"A"));
    assert!(rt; next_is(&mut lines, 2, b""));
    assert!(rt; next_is(&mut lines, 3, b"B"));
    assert!(rt; lines.next().is_none());
}

#[test]
fn not_digits(rt: HostRuntime) {
    let cases = [
        &b""[..],
        b"0",
        b"012",
        b"0a",
        b"01\r",
        b"01\r\n",
        b"0/",
        b"0:",
        b"0@",
        b"0G",
    ];
    for line in cases {
        let mut room = [7; LONGEST];
        assert_eq!(rt; decode(line, &mut room), Err(Undecoded::NotDigits));
        assert!(rt; room[0] == 7);
    }
}

#[test]
fn decoded(rt: HostRuntime) {
    let mut room = [7; LONGEST];
    assert_eq!(rt; decode(b"09AF", &mut room), Ok(2));
    assert!(rt; room[0] == 0x09 && room[1] == 0xAF && room[2] == 7);
}

#[test]
fn longest(rt: HostRuntime) {
    let mut room = [7; LONGEST];
    assert_eq!(rt; decode(&[b'0'; 4102], &mut room), Err(Undecoded::TooLong));
    assert!(rt; room[0] == 7);
    assert_eq!(rt; decode(&[b'0'; 4100], &mut room), Ok(LONGEST));
    assert!(rt; room[0] == 0 && room[2049] == 0);
}

#[test]
fn digits(rt: HostRuntime) {
    assert_eq!(rt; digits_of(0), *b"00");
    assert_eq!(rt; digits_of(9), *b"09");
    assert_eq!(rt; digits_of(10), *b"0A");
    assert_eq!(rt; digits_of(255), *b"FF");
}

#[test]
fn lines_written(rt: HostRuntime) {
    let mut out = [b'-'; 8];
    assert_eq!(rt; spell_line(&[0x0A, 0xF0], &mut out, 2), Ok(7));
    assert!(rt; out.starts_with(b"--0AF0\n-"));
    assert_eq!(rt; spell_line(&[], &mut out, 7), Ok(8));
    assert_eq!(rt; spell_line(&[], &mut out, 8), Err(Refusal::Short));
    assert_eq!(rt; spell_line(&[0], &mut out, 6), Err(Refusal::Short));
    assert!(rt; out.starts_with(b"--0AF0\n\n"));
}
