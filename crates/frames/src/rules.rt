// The coupling rules that a frame can name, each by its byte.
ghost use Rattle.std.specs.Prelude.{◌≡◌};
ghost use Rattle.frames.specs.Rules.{rule_byte, rule_read};

use super::NotAFrame;

#[derive(Clone, Copy, PartialEq, Eq, Debug)]
pub enum Rule {
    Never = 0,
    ThreeOccurrences = 1,
    Always = 2,
}

impl From<Rule> for u8 {
    ghost from_gives = { λ rule byte. byte ≡ rule_byte rule };

    fn from(rule: Rule) -> u8 {
        rule as u8
    }
}

impl TryFrom<u8> for Rule {
    type Error = NotAFrame;

    ghost try_from_gives = { λ byte result. result ≡ rule_read byte };

    fn try_from(byte: u8) -> Result<Rule, NotAFrame> {
        match byte {
            0 => Ok(Rule::Never),
            1 => Ok(Rule::ThreeOccurrences),
            2 => Ok(Rule::Always),
            _ => Err(NotAFrame),
        }
    }
}
