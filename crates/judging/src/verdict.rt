// What is answered of a table that is judged.
ghost use Rattle.std.specs.Prelude.{◌≡◌};
ghost use Rattle.judging.specs.Verdicts.{number_of, latch_of, excess_of};

// The verdict on a table: it passes, a window has no end, a latch is late, or a latch is early. The latch is the lowest
// of which this is so. The excess says by how many ticks it is late or early.
#[derive(Clone, Copy, PartialEq, Eq, Debug)]
pub enum Verdict {
    Pass,
    Gain { latch: u16 },
    Late { latch: u16, excess: i64 },
    Early { latch: u16, excess: i64 },
}

// A verdict, how many rounds were made for it, the last one included, and how many flags are set.
#[derive(Clone, Copy, PartialEq, Eq, Debug)]
pub struct Judgement {
    pub verdict: Verdict,
    pub rounds: u16,
    pub flags: u16,
}

impl Verdict {
    // The number of the verdict: 0, 64, 65 or 66.
    pub fn number(self) -> u8
        ensures { result ≡ number_of self }
    {
        match self {
            Verdict::Pass => 0,
            Verdict::Gain { .. } => 64,
            Verdict::Late { .. } => 65,
            Verdict::Early { .. } => 66,
        }
    }

    // The latch that the verdict names.
    pub fn latch(self) -> Option<u16>
        ensures { result ≡ latch_of self }
    {
        match self {
            Verdict::Pass => None,
            Verdict::Gain { latch } | Verdict::Late { latch, .. } | Verdict::Early { latch, .. } =>
                Some(latch),
        }
    }

    // By how much a latch is late or early, and 0 for any other verdict.
    pub fn excess(self) -> i64
        ensures { result ≡ excess_of self }
    {
        match self {
            Verdict::Pass | Verdict::Gain { .. } => 0,
            Verdict::Late { excess, .. } | Verdict::Early { excess, .. } => excess,
        }
    }
}
