// Reading a frame: bytes are taken apart into a kind, its fixed fields and what is listed after them.
ghost use Rattle.std.specs.Prelude.{Some as Known};
ghost use Rattle.frames.specs.Contents.{ReadAs, Read};

use super::kinds::Kind;
use super::rules::Rule;
use super::{Frame, NotAFrame};

// The functions of the kinds take bytes whose first one was read as the kind.
fn schedule(bytes: &[u8]) -> Result<Frame<'_>, NotAFrame>
    ensures { ReadAs (Known Kind.Schedule) bytes.now result }
{
    let [_, a, b, c, d, e, f, g, h, count, phases @ ..] = bytes else {
        return Err(NotAFrame);
    };
    if phases.len() != Kind::Schedule.form().item * usize::from(*count) {
        return Err(NotAFrame);
    }
    Ok(Frame::Schedule {
        period: u32::from_be_bytes([*a, *b, *c, *d]),
        proximity: u32::from_be_bytes([*e, *f, *g, *h]),
        count: *count,
        phases,
    })
}

fn input(bytes: &[u8]) -> Result<Frame<'_>, NotAFrame>
    ensures { ReadAs (Known Kind.Input) bytes.now result }
{
    let [_, phase, a, b, c, d, e, f, g, h] = bytes else {
        return Err(NotAFrame);
    };
    Ok(Frame::Input {
        phase: *phase,
        earliest: u32::from_be_bytes([*a, *b, *c, *d]),
        latest: u32::from_be_bytes([*e, *f, *g, *h]),
    })
}

fn gate(bytes: &[u8]) -> Result<Frame<'_>, NotAFrame>
    ensures { ReadAs (Known Kind.Gate) bytes.now result }
{
    let [_, phase, a, b, c, d, e, f, g, h, count, sources @ ..] = bytes else {
        return Err(NotAFrame);
    };
    if sources.len() != Kind::Gate.form().item * usize::from(*count) {
        return Err(NotAFrame);
    }
    Ok(Frame::Gate {
        phase: *phase,
        least: u32::from_be_bytes([*a, *b, *c, *d]),
        greatest: u32::from_be_bytes([*e, *f, *g, *h]),
        count: *count,
        sources,
    })
}

fn latch(bytes: &[u8]) -> Result<Frame<'_>, NotAFrame>
    ensures { ReadAs (Known Kind.Latch) bytes.now result }
{
    let [_, phase, a, b, c, d, e, f, g, h, i, j, k, l, m, n, o, p] = bytes else {
        return Err(NotAFrame);
    };
    Ok(Frame::Latch {
        phase: *phase,
        least: u32::from_be_bytes([*a, *b, *c, *d]),
        greatest: u32::from_be_bytes([*e, *f, *g, *h]),
        setup: u32::from_be_bytes([*i, *j, *k, *l]),
        hold: u32::from_be_bytes([*m, *n, *o, *p]),
    })
}

fn feed(bytes: &[u8]) -> Result<Frame<'_>, NotAFrame>
    ensures { ReadAs (Known Kind.Feed) bytes.now result }
{
    let [_, a, b, c, d] = bytes else {
        return Err(NotAFrame);
    };
    Ok(Frame::Feed {
        latch: u16::from_be_bytes([*a, *b]),
        source: u16::from_be_bytes([*c, *d]),
    })
}

fn couple(bytes: &[u8]) -> Result<Frame<'_>, NotAFrame>
    ensures { ReadAs (Known Kind.Couple) bytes.now result }
{
    let [_, a, b, c, d, e, f, g, h, i, j, k, l] = bytes else {
        return Err(NotAFrame);
    };
    Ok(Frame::Couple {
        victim: u16::from_be_bytes([*a, *b]),
        aggressor: u16::from_be_bytes([*c, *d]),
        assisting: u32::from_be_bytes([*e, *f, *g, *h]),
        opposing: u32::from_be_bytes([*i, *j, *k, *l]),
    })
}

fn verify(bytes: &[u8]) -> Result<Frame<'_>, NotAFrame>
    ensures { ReadAs (Known Kind.Verify) bytes.now result }
{
    let [_, rule] = bytes else {
        return Err(NotAFrame);
    };
    Ok(Frame::Verify {
        rule: Rule::try_from(*rule)?,
    })
}

// The frame that bytes are; written, it is these bytes again.
pub fn read(bytes: &[u8]) -> Result<Frame<'_>, NotAFrame>
    ensures { Read bytes.now result }
{
    let [first, fields @ ..] = bytes else {
        return Err(NotAFrame);
    };
    match Kind::try_from(*first)? {
        Kind::Schedule => schedule(bytes),
        Kind::Input => input(bytes),
        Kind::Gate => gate(bytes),
        Kind::Latch => latch(bytes),
        Kind::Feed => feed(bytes),
        Kind::Couple => couple(bytes),
        Kind::Verify => verify(bytes),
        Kind::Seal if fields.is_empty() => Ok(Frame::Seal),
        Kind::Reopen if fields.is_empty() => Ok(Frame::Reopen),
        Kind::Seal | Kind::Reopen => Err(NotAFrame),
    }
}
