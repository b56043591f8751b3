// The kinds of frame, each with its first byte and how long its frames are.
ghost use Rattle.std.specs.Prelude.{◌≡◌};
ghost use Rattle.frames.specs.Kinds.{form_of, kind_in, kind_read};

use super::NotAFrame;

#[derive(Clone, Copy, PartialEq, Eq, Debug)]
pub enum Kind {
    Schedule,
    Input,
    Gate,
    Latch,
    Feed,
    Couple,
    Verify,
    Seal,
    Reopen,
}

// What a frame of a kind is made of: its first byte, how many bytes stand before what it lists, and
// how many each listed phase or source takes (0 where the kind lists nothing).
#[derive(Clone, Copy)]
pub struct Form {
    pub kind: Kind,
    pub byte: u8,
    pub fixed: usize,
    pub item: usize,
}

// In the order of `Kind`, so that a kind is also the place of its form.
const FORMS: [Form; 9] = [
    Form {
        kind: Kind::Schedule,
        byte: 0x01,
        fixed: 10,
        item: 8,
    },
    Form {
        kind: Kind::Input,
        byte: 0x02,
        fixed: 10,
        item: 0,
    },
    Form {
        kind: Kind::Gate,
        byte: 0x03,
        fixed: 11,
        item: 2,
    },
    Form {
        kind: Kind::Latch,
        byte: 0x04,
        fixed: 18,
        item: 0,
    },
    Form {
        kind: Kind::Feed,
        byte: 0x05,
        fixed: 5,
        item: 0,
    },
    Form {
        kind: Kind::Couple,
        byte: 0x06,
        fixed: 13,
        item: 0,
    },
    Form {
        kind: Kind::Verify,
        byte: 0x07,
        fixed: 2,
        item: 0,
    },
    Form {
        kind: Kind::Seal,
        byte: 0x08,
        fixed: 1,
        item: 0,
    },
    Form {
        kind: Kind::Reopen,
        byte: 0x09,
        fixed: 1,
        item: 0,
    },
];

// A function over a slice: a search of the constant table itself is not proved.
fn find(forms: &[Form], byte: u8) -> Option<Kind>
    ensures { result ≡ kind_in forms.now byte }
{
    forms
        .iter()
        .find(|form| form.byte == byte)
        .map(|form| form.kind)
}

// The kind of the frames that begin with a byte.
impl TryFrom<u8> for Kind {
    type Error = NotAFrame;

    ghost try_from_gives = { λ byte result. result ≡ kind_read byte };

    fn try_from(byte: u8) -> Result<Kind, NotAFrame> {
        find(&FORMS, byte).ok_or(NotAFrame)
    }
}

impl Kind {
    pub fn form(self) -> Form
        ensures { result ≡ form_of self }
    {
        FORMS[self as usize]
    }
}
