// The column of figures that sweeps fill.
ghost use Rattle.std.specs.Prelude.{◌≡◌, ◌≤◌, length, drop};
ghost use Rattle.paths.specs.Networks.{Sound};
ghost use Rattle.paths.specs.Sweeps.{Swept, OverShortPaths};
ghost use Rattle.windows.specs.Blocks.{AllLeads, FreshBut, KeptBut};
ghost use Rattle.windows.specs.Seen.{figure_at, network_of, course_of};

use super::blocks::Blocks;
use super::circuit::Circuit;
use super::sweep::{at, fill};
use kinds::DelayKind;

// A column lent by a caller: the figure of each node has the place of its number. A sweep of any kind fills it anew.
#[derive(Drop)]
pub(crate) struct Column<'a, K: DelayKind> {
    pub(crate) figures: &'a mut [K::Figure],
}

impl<K: DelayKind> Column<'_, K> {
    pub(crate) fn at(&self, place: usize) -> K::Figure
        ensures { result ≡ figure_at K.kind.no_path self.now.figures.now place }
    {
        at::<K>(self.figures, place)
    }

    // Fills the places of the nodes anew. In blocks that are not stale the figures that come to the nodes stand there already;
    // blocks in which this is no longer so become stale.
    pub(crate) fn sweep(&mut self, circuit: &Circuit<'_>, starts: &[K::Figure], stale: &mut Blocks)
        requires few { length circuit.now.nodes.now ≤ 4096 }
        requires fits { length circuit.now.nodes.now ≤ length self.old.figures.now }
        requires leads { AllLeads (network_of circuit.now) circuit.now.leads.now }
        ensures swept { Sound (network_of circuit.now) → FreshBut K.kind (network_of circuit.now) (course_of K.starts_with K.between circuit.now) (figure_at K.kind.no_path starts.now) (figure_at K.kind.no_path self.old.figures.now) stale.old → Swept K.kind (network_of circuit.now) (course_of K.starts_with K.between circuit.now) (figure_at K.kind.no_path starts.now) (figure_at K.kind.no_path self.new.figures.now) }
        ensures short_paths { Sound (network_of circuit.now) → FreshBut K.kind (network_of circuit.now) (course_of K.starts_with K.between circuit.now) (figure_at K.kind.no_path starts.now) (figure_at K.kind.no_path self.old.figures.now) stale.old → OverShortPaths K.kind (network_of circuit.now) (course_of K.starts_with K.between circuit.now) (figure_at K.kind.no_path starts.now) (figure_at K.kind.no_path self.new.figures.now) }
        ensures kept { KeptBut K.kind.no_path stale.old stale.new self.old.figures.now self.new.figures.now }
        ensures beyond { drop (length circuit.now.nodes.now) self.new.figures.now ≡ drop (length circuit.now.nodes.now) self.old.figures.now }
        ensures same_slice { self.new.figures.ghost_name ≡ self.old.figures.ghost_name }
        ensures same_length { length self.new.figures.now ≡ length self.old.figures.now }
    {
        fill::<K>(circuit, starts, self.figures, stale);
    }
}
