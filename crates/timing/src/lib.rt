// When the nodes of a design may switch: connections and their shifts, delays under a set of couplings, paths, windows,
// and which latch is late or early. Each function here stands for the theorem that its contract names.
#![tactic(auto)]

ghost use Rattle.std.specs.Prelude.{◌≡◌};
ghost use Rattle.timing.specs.Theorems.{WindowsAreOne, WindowsEnd, WindowsGrow};

pub mod theorem;
pub mod windows;

use theorem::Theorem;

// A node has one window at most.
pub fn windows_are_one() -> Theorem
    ensures theorem { WindowsAreOne }
    ensures value { result ≡ Theorem.WindowsAreOne }
{
    Theorem::WindowsAreOne
}

// No node has both a window and late figures without an end.
pub fn windows_end() -> Theorem
    ensures theorem { WindowsEnd }
    ensures value { result ≡ Theorem.WindowsEnd }
{
    Theorem::WindowsEnd
}

// More couplings give windows that include the old ones.
pub fn windows_grow() -> Theorem
    ensures theorem { WindowsGrow }
    ensures value { result ≡ Theorem.WindowsGrow }
{
    Theorem::WindowsGrow
}
