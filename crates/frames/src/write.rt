// Writing a frame as bytes.
ghost use Rattle.std.specs.Prelude.{◌≡◌, ◌≤◌, [], ◌++◌, length, drop};
ghost use Rattle.std.specs.List.{flat_map};
ghost use Rattle.frames.specs.Kinds.{widths, fixed_width, form_of};
ghost use Rattle.frames.specs.Frames.{fields_of, Fit};
ghost use Rattle.frames.specs.Contents.{content_of, count_of, Written};

use super::Frame;
use super::kinds::{Form, Kind};
use refusals::Refusal;

impl Frame<'_> {
    pub fn kind(&self) -> Kind
        ensures { result ≡ (content_of self.now).kind }
    {
        match self {
            Frame::Schedule { .. } => Kind::Schedule,
            Frame::Input { .. } => Kind::Input,
            Frame::Gate { .. } => Kind::Gate,
            Frame::Latch { .. } => Kind::Latch,
            Frame::Feed { .. } => Kind::Feed,
            Frame::Couple { .. } => Kind::Couple,
            Frame::Verify { .. } => Kind::Verify,
            Frame::Seal => Kind::Seal,
            Frame::Reopen => Kind::Reopen,
        }
    }
}

// The bytes that a frame lists, and how many phases or sources it says that they are.
fn listing<'a>(frame: &Frame<'a>) -> (&'a [u8], u8)
    ensures { (result.0.now ≡ (content_of frame.now).listed) × (result.1 ≡ count_of frame.now) }
{
    match *frame {
        Frame::Schedule { count, phases, .. } => (phases, count),
        Frame::Gate { count, sources, .. } => (sources, count),
        _ => (&[], 0),
    }
}

// Writes fields one after another into the first places of `out`: `place` is where the next one goes, which
// depends on the widths of those before it.
fn put(fields: &[&[u8]], out: &mut [u8])
    requires { length (flat_map (λ field. field.now) fields.now) ≤ length out.old }
    ensures { out.new ≡ flat_map (λ field. field.now) fields.now ++ drop (length (flat_map (λ field. field.now) fields.now)) out.old }
{
    let mut place = 0;
    for field in fields {
        out[place..place + field.len()].copy_from_slice(field);
        place += field.len();
    }
}

// Writes a frame's kind and fixed fields into the first places of `out`. The form of its kind is handed in, since looking it
// up costs as much as writing the fields.
fn put_fields(frame: &Frame<'_>, form: Form, out: &mut [u8])
    requires form { form ≡ form_of (content_of frame.now).kind }
    requires room { fixed_width (content_of frame.now).kind ≤ length out.old }
    ensures fit { Fit (widths (content_of frame.now).kind) (content_of frame.now).numbers }
    ensures after { out.new ≡ fields_of (content_of frame.now) ++ drop (fixed_width (content_of frame.now).kind) out.old }
{
    let kind = &[form.byte];
    match *frame {
        Frame::Schedule {
            period,
            proximity,
            count,
            ..
        } => put(
            &[
                kind,
                &period.to_be_bytes(),
                &proximity.to_be_bytes(),
                &count.to_be_bytes(),
            ],
            out,
        ),
        Frame::Input {
            phase,
            earliest,
            latest,
        } => put(
            &[
                kind,
                &phase.to_be_bytes(),
                &earliest.to_be_bytes(),
                &latest.to_be_bytes(),
            ],
            out,
        ),
        Frame::Gate {
            phase,
            least,
            greatest,
            count,
            ..
        } => put(
            &[
                kind,
                &phase.to_be_bytes(),
                &least.to_be_bytes(),
                &greatest.to_be_bytes(),
                &count.to_be_bytes(),
            ],
            out,
        ),
        Frame::Latch {
            phase,
            least,
            greatest,
            setup,
            hold,
        } => put(
            &[
                kind,
                &phase.to_be_bytes(),
                &least.to_be_bytes(),
                &greatest.to_be_bytes(),
                &setup.to_be_bytes(),
                &hold.to_be_bytes(),
            ],
            out,
        ),
        Frame::Feed { latch, source } => {
            put(&[kind, &latch.to_be_bytes(), &source.to_be_bytes()], out)
        }
        Frame::Couple {
            victim,
            aggressor,
            assisting,
            opposing,
        } => put(
            &[
                kind,
                &victim.to_be_bytes(),
                &aggressor.to_be_bytes(),
                &assisting.to_be_bytes(),
                &opposing.to_be_bytes(),
            ],
            out,
        ),
        Frame::Verify { rule } => put(&[kind, &[rule.into()]], out),
        Frame::Seal | Frame::Reopen => put(&[kind], out),
    }
}

// Writes a frame into the first places of `out`, and answers how many bytes it has.
pub fn write(frame: &Frame<'_>, out: &mut [u8]) -> Result<usize, Refusal>
    ensures { Written (content_of frame.now) out.old out.new result }
{
    let form = frame.kind().form();
    let (listed, count) = listing(frame);
    if listed.len() != form.item * usize::from(count) {
        return Err(Refusal::Frame);
    }
    let length = form.fixed + listed.len();
    if out.len() < length {
        return Err(Refusal::Short);
    }
    put_fields(frame, form, out);
    out[form.fixed..length].copy_from_slice(listed);
    Ok(length)
}
