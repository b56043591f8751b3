// Schedules made from figures: which figures are lawful, a new schedule, and other figures for one that stands.
ghost use Rattle.std.specs.Prelude.{◌≡◌, ◌≤◌, true, nat_lt};
ghost use Rattle.schedule.specs.Clock.{between, never_falls, cleared, cleared_places, lawful};
ghost use Rattle.std.specs.List.{list_all};
ghost use Rattle.schedule.specs.Made.{drawn, Made, Retimed, blank};

use super::Schedule;
use super::figures::Figures;
use refusals::Refusal;

const GREATEST_PERIOD: u32 = 16_777_215;

const GREATEST_PHASES: u8 = 16;

fn all_below(starts: &[u32], period: u32) -> bool
    ensures { result ≡ list_all (λ e. nat_lt e period) starts.now }
{
    starts.iter().all(|start| *start < period)
}

fn never_fall(starts: &[u32]) -> bool
    ensures { result ≡ never_falls starts.now }
{
    starts.is_sorted()
}

fn all_fit(widths: &[u32], period: u32) -> bool
    ensures { result ≡ list_all (λ w. between 1 w period) widths.now }
{
    widths.iter().all(|width| (1..=period).contains(width))
}

fn is_lawful(figures: &Figures) -> bool
    ensures { result ≡ lawful (drawn figures.now) }
{
    if !(2..=GREATEST_PERIOD).contains(&figures.period) || figures.proximity >= figures.period {
        return false;
    }
    if !(1..=GREATEST_PHASES).contains(&figures.count) {
        return false;
    }
    let count = usize::from(figures.count);
    let starts = &figures.starts[..count];
    let widths = &figures.widths[..count];
    all_below(starts, figures.period) && never_fall(starts) && all_fit(widths, figures.period)
}

// The first `count` places, and zeros in the others.
fn cleared(places: &[u32; 16], count: u8) -> [u32; 16]
    requires { count ≤ 16 }
    ensures { result ≡ cleared_places count places.now }
{
    let count = usize::from(count);
    let mut kept = [0; 16];
    kept[..count].copy_from_slice(&places[..count]);
    kept
}

impl Schedule {
    pub fn new(figures: &Figures) -> Result<Schedule, Refusal>
        ensures { Made figures.now result }
    {
        if !is_lawful(figures) {
            return Err(Refusal::Clock);
        }
        let starts = cleared(&figures.starts, figures.count);
        let widths = cleared(&figures.widths, figures.count);
        Ok(Schedule {
            period: figures.period,
            proximity: figures.proximity,
            count: figures.count,
            starts,
            widths,
        })
    }

    // A lawful schedule of one phase, for a record that is to hold another.
    pub fn blank() -> Schedule
        ensures { result ≡ blank }
    {
        let mut widths = [0; 16];
        widths[0] = 1;
        Schedule {
            period: 2,
            proximity: 0,
            count: 1,
            starts: [0; 16],
            widths,
        }
    }

    // The number of phases stays, so that each phase that was named before is still there.
    pub fn retime(&mut self, figures: &Figures) -> Result<(), Refusal>
        ensures { Retimed self.old figures.now self.new result }
    {
        if figures.count != self.count {
            return Err(Refusal::Clock);
        }
        *self = Schedule::new(figures)?;
        Ok(())
    }
}

// The figures that a schedule is made of, with zeros past its last phase.
impl From<&Schedule> for Figures {
    ghost from_gives = { λ schedule figures. (drawn figures ≡ schedule.now) × (lawful schedule.now ≡ true) × (cleared schedule.now ≡ schedule.now) };

    fn from(schedule: &Schedule) -> Figures {
        Figures {
            period: schedule.period,
            proximity: schedule.proximity,
            count: schedule.count,
            starts: schedule.starts,
            widths: schedule.widths,
        }
    }
}
