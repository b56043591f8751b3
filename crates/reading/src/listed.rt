// What the bytes say that a frame lists: the figures of a schedule's phases, and the sources of a gate.
ghost use Rattle.std.specs.Prelude.{◌≡◌, ◌+◌, drop, map, slice_index};
ghost use Rattle.std.specs.List.{range_with_len};
ghost use Rattle.frames.specs.Frames.{number_at};
ghost use Rattle.schedule.specs.Made.{drawn};
ghost use Rattle.reading.specs.Clocks.{clock_in};

use schedule::figures::Figures;
use std::array;

// What is left of bytes from a place on.
fn rest_of(bytes: &[u8], place: usize) -> &[u8]
    ensures { result.now ≡ drop place bytes.now }
{
    bytes.get(place..).unwrap_or(&[])
}

// The bytes from a place on; those past the last one read as 0.
fn bytes_at<const N: usize>(bytes: &[u8], place: usize) -> [u8; N]
    ensures { result ≡ map (λ k. slice_index bytes.now (place + k)) (range_with_len 0 N) }
{
    let rest = rest_of(bytes, place);
    array::from_fn(|k| rest.get(k).copied().unwrap_or(0))
}

// The figure in the four bytes from a place on. Sources have two bytes, and `from_be_bytes` is a function of each type,
// so they have a function of their own.
pub fn figure_at(bytes: &[u8], place: usize) -> u32
    ensures { result ≡ number_at 4 place bytes.now }
{
    u32::from_be_bytes(bytes_at(bytes, place))
}

// The source in the two bytes from a place on.
pub fn source_at(bytes: &[u8], place: usize) -> u16
    ensures { result ≡ number_at 2 place bytes.now }
{
    u16::from_be_bytes(bytes_at(bytes, place))
}

// A frame's figures, with the phases that it lists past the sixteenth left out: a schedule that counts
// so many is not lawful whatever they are.
pub fn figures_of(period: u32, proximity: u32, count: u8, phases: &[u8]) -> Figures
    ensures { drawn result ≡ clock_in period proximity count phases.now }
{
    Figures {
        period,
        proximity,
        count,
        starts: array::from_fn(|k| figure_at(phases, 8 * k)),
        widths: array::from_fn(|k| figure_at(phases, 8 * k + 4)),
    }
}
