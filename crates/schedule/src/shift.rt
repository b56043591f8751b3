// What a schedule tells: its figures, the shifts between its phases, and their opening edges.
ghost use Rattle.std.specs.Prelude.{◌≡◌, ◌-◌, ◌<◌, true, false, pos, neg_ℤ, ◌≤ℤ◌, ◌+ℤ◌, ◌-ℤ◌, Ok, Err};
ghost use Rattle.schedule.specs.Clock.{lawful, cleared, start, forward, nearest, nearest_to, opening, has_phase};
ghost use Rattle.schedule.specs.Made.{of_phase, of_phases};

use super::Schedule;
use refusals::Refusal;

// The gap from one start to another, the other counted `later` ticks on.
fn gap_after(later: u32, here: u32, there: u32) -> i64
    ensures { result ≡ pos later +ℤ pos there -ℤ pos here }
{
    i64::from(later) + i64::from(there) - i64::from(here)
}

// A gap between starts, or the gap to the start a period on or back where that is nearer.
fn nearest_to(period: u32, gap: i64) -> i64
    requires { (neg_ℤ (pos 0xffff_ffff) ≤ℤ gap) × (gap ≤ℤ pos 0xffff_ffff) }
    ensures { result ≡ nearest_to (pos period) gap }
{
    let period = i64::from(period);
    if 2 * gap < -period {
        gap + period
    } else if 2 * gap > period {
        gap - period
    } else {
        gap
    }
}

impl Schedule {
    pub fn period(&self) -> u32
        ensures value { result ≡ self.now.period }
        ensures law { lawful self.now ≡ true }
        ensures clear { cleared self.now ≡ self.now }
    {
        self.period
    }

    pub fn proximity(&self) -> u32
        ensures { result ≡ self.now.proximity }
    {
        self.proximity
    }

    pub fn phases(&self) -> u8
        ensures { result ≡ self.now.phases }
    {
        self.count
    }

    // The place of a phase, counted from 0.
    fn place(&self, phase: u8) -> Result<usize, Refusal>
        ensures { elim result [ Ok k ↦ (has_phase self.now phase ≡ true) × (k ≡ phase - 1) × (k < 16) | Err e ↦ (has_phase self.now phase ≡ false) × (e ≡ Refusal.Phase) ] }
    {
        if !(1..=self.count).contains(&phase) {
            return Err(Refusal::Phase);
        }
        Ok(usize::from(phase - 1))
    }

    // The start of a phase; one that the schedule lacks starts at 0.
    fn start(&self, phase: u8) -> u32
        ensures { pos result ≡ start self.now phase }
    {
        match self.place(phase) {
            Ok(place) => self.starts[place],
            Err(_) => 0,
        }
    }

    // The forward shift, also from or to a phase that the schedule lacks, which starts at 0.
    pub fn forward_between(&self, from: u8, to: u8) -> i64
        ensures { result ≡ forward self.now from to }
    {
        let here = self.start(from);
        let there = self.start(to);
        if from < to {
            gap_after(0, here, there)
        } else {
            gap_after(self.period, here, there)
        }
    }

    // The nearest shift, likewise.
    pub fn nearest_between(&self, from: u8, to: u8) -> i64
        ensures { result ≡ nearest self.now from to }
    {
        let here = i64::from(self.start(from));
        let there = i64::from(self.start(to));
        nearest_to(self.period, there - here)
    }

    pub fn forward_shift(&self, from: u8, to: u8) -> Result<i64, Refusal>
        ensures { result ≡ of_phases self.now from to (forward self.now from to) }
    {
        self.place(from)?;
        self.place(to)?;
        Ok(self.forward_between(from, to))
    }

    pub fn nearest_shift(&self, from: u8, to: u8) -> Result<i64, Refusal>
        ensures { result ≡ of_phases self.now from to (nearest self.now from to) }
    {
        self.place(from)?;
        self.place(to)?;
        Ok(self.nearest_between(from, to))
    }

    pub fn opening_edge(&self, phase: u8) -> Result<i64, Refusal>
        ensures { result ≡ of_phase self.now phase (opening self.now phase) }
    {
        let width = i64::from(self.widths[self.place(phase)?]);
        Ok(i64::from(self.period) - width)
    }
}
