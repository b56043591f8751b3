// The sources of a gate: gathered from a list, and listed again.
ghost use Rattle.std.specs.Prelude.{◌≡◌, ◌≤◌, length};
ghost use Rattle.refusals.specs.declared.Refusal.TheVariants.{Fan};
ghost use Rattle.design.specs.Rows.{sources_in, Gathered};

use super::nodes::{Sources, WrongFan};
use refusals::Refusal;

impl From<WrongFan> for Refusal {
    ghost from_gives = { λ _ refusal. refusal ≡ Fan };

    fn from(_wrong: WrongFan) -> Refusal {
        Refusal::Fan
    }
}

impl TryFrom<&[u16]> for Sources {
    type Error = WrongFan;

    ghost try_from_gives = { λ list result. Gathered list.now result };

    fn try_from(list: &[u16]) -> Result<Sources, WrongFan> {
        let count = list.len();
        if !(1..=4).contains(&count) {
            return Err(WrongFan);
        }
        let mut nodes = [0; 4];
        nodes[..count].copy_from_slice(list);
        Ok(Sources {
            count: count as u8,
            nodes,
        })
    }
}

impl Sources {
    // The sources in their order.
    pub fn list(&self) -> &[u16]
        ensures value { result.now ≡ sources_in self.now }
        ensures few { length result.now ≤ 4 }
    {
        self.nodes
            .get(..usize::from(self.count))
            .unwrap_or(&self.nodes)
    }
}
