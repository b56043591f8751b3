// Hexadecimal digits: a line read as bytes, and a byte written as two digits.
ghost use Rattle.std.specs.Prelude.{◌≡◌, ◌<◌, true, [], ◌∷◌};
ghost use Rattle.text.specs.Digits.{is_digit, digit_value, digit_for, every_digit, is_hex, bytes_of, digits_of, Decoded, undecoded_refusal};

use refusals::Refusal;

// How many bytes the longest frame has: a schedule that lists 255 phases.
pub const LONGEST: usize = 2050;

// Why a line has no bytes to read a frame from.
#[derive(Clone, Copy, PartialEq, Eq, Debug)]
pub enum Undecoded {
    NotDigits,
    TooLong,
}

// A line that has another character than digits, or half a byte of them, fails the test of digits; one
// that is longer than every frame fails the test of frames.
impl From<Undecoded> for Refusal {
    ghost from_gives = { λ e r. r ≡ undecoded_refusal e };

    fn from(e: Undecoded) -> Refusal {
        match e {
            Undecoded::NotDigits => Refusal::Digits,
            Undecoded::TooLong => Refusal::Frame,
        }
    }
}

fn is_digit(character: u8) -> bool
    ensures { result ≡ is_digit character }
{
    matches!(character, b'0'..=b'9' | b'A'..=b'F')
}

fn digit_value(digit: u8) -> u8
    requires { is_digit digit ≡ true }
    ensures { (result ≡ digit_value digit) × (result < 16) }
{
    if digit <= b'9' {
        digit - b'0'
    } else {
        digit - b'A' + 10
    }
}

fn all_digits(line: &[u8]) -> bool
    ensures { result ≡ every_digit line.now }
{
    line.iter().all(|character| is_digit(*character))
}

// Reads a line's digits into the first places of `room`, and answers how many bytes they are: of a part that is lent
// out, what the room then holds could not be said.
pub fn decode(line: &[u8], room: &mut [u8; LONGEST]) -> Result<usize, Undecoded>
    ensures { Decoded line.now room.old room.new result }
{
    let (pairs, half) = line.as_chunks::<2>();
    if line.is_empty() || !half.is_empty() || !all_digits(line) {
        return Err(Undecoded::NotDigits);
    }
    if pairs.len() > LONGEST {
        return Err(Undecoded::TooLong);
    }
    // By index: of places that are lent for writing only their number is known afterwards.
    for (k, [high, low]) in pairs.iter().enumerate() {
        room[k] = digit_value(*high) * 16 + digit_value(*low);
    }
    Ok(pairs.len())
}

fn digit(figure: u8) -> u8
    requires { figure < 16 }
    ensures { result ≡ digit_for figure }
{
    if figure < 10 {
        b'0' + figure
    } else {
        b'A' + (figure - 10)
    }
}

// A byte's two digits, the high one first.
pub fn digits_of(byte: u8) -> [u8; 2]
    ensures value { result ≡ digits_of byte }
    ensures back { (is_hex result ≡ true) × (bytes_of result ≡ byte ∷ []) }
{
    [digit(byte / 16), digit(byte % 16)]
}
