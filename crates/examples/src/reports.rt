// Examples: reports of all four verdicts, and a buffer that is one byte short.
use judging::verdict::{Judgement, Verdict};
use refusals::Refusal;
use reporting::report::{length_of, report};
use timing::windows::Window;
use windows::flags::Flag;

const WINDOWS: [Window; 2] = [
    Window {
        begins: -1,
        ends: 92,
    },
    Window {
        begins: 67,
        ends: 258,
    },
];

const FLAGS: [Flag; 2] = [Flag::Set, Flag::Clear];

fn judged(verdict: Verdict) -> Judgement {
    Judgement {
        verdict,
        rounds: 3,
        flags: 258,
    }
}

// Whether a judgement with the windows and flags above is printed so, and the buffer left alone past that.
fn is_printed(verdict: Verdict, text: &[u8]) -> bool {
    let mut out = [b'-'; 110];
    report(&judged(verdict), &WINDOWS, &FLAGS, &mut out) == Ok(text.len())
        && out.starts_with(text)
        && out[text.len()] == b'-'
}

#[test]
fn pass(rt: HostRuntime) {
    let text =
        b"00FFFF000000000000000000030102\nFFFFFFFFFFFFFFFF000000000000005C\n00000000000000430000000000000102\n01\n00\n";
    assert!(rt; is_printed(Verdict::Pass, text));
}

#[test]
fn gain(rt: HostRuntime) {
    let text = b"400104000000000000000000030102\n01\n00\n";
    assert!(rt; is_printed(Verdict::Gain { latch: 260 }, text));
}

#[test]
fn late(rt: HostRuntime) {
    let text =
        b"410006000000000000000100030102\nFFFFFFFFFFFFFFFF000000000000005C\n00000000000000430000000000000102\n01\n00\n";
    let verdict = Verdict::Late {
        latch: 6,
        excess: 1,
    };
    assert!(rt; is_printed(verdict, text));
}

#[test]
fn early(rt: HostRuntime) {
    let text =
        b"42000600000000075BCD1500030102\nFFFFFFFFFFFFFFFF000000000000005C\n00000000000000430000000000000102\n01\n00\n";
    let verdict = Verdict::Early {
        latch: 6,
        excess: 123_456_789,
    };
    assert!(rt; is_printed(verdict, text));
}

#[test]
fn short(rt: HostRuntime) {
    let judgement = judged(Verdict::Pass);
    let mut out = [b'-'; 33];
    assert_eq!(rt;
        report(&judgement, &[], &[Flag::Set], &mut out),
        Err(Refusal::Short)
    );
    assert!(rt; out == [b'-'; 33]);
    assert_eq!(rt; length_of(0, 1), 34);
    assert_eq!(rt; length_of(usize::MAX, 0), usize::MAX);
}
