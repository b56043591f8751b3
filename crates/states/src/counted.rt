// How many rows an open book has granted.
ghost use Rattle.std.specs.Prelude.{◌≡◌};
ghost use Rattle.states.specs.Views.{counts_in};

use super::OpenBook;
use super::counts::Counts;

impl<S> OpenBook<S> {
    pub fn counts(&self) -> Counts
        ensures { result ≡ counts_in self.now }
    {
        self.counts
    }
}
