// The raw figures of a clock.

// Figures as they come, lawful or not. Only the first `count` places of `starts` and `widths` mean anything; a count of
// more than there are places is one of the figures that are not lawful, so it stands by itself. Starts and widths are
// two arrays, since each has a test of its own.
#[derive(Clone, Copy)]
pub struct Figures {
    pub period: u32,
    pub proximity: u32,
    pub count: u8,
    pub starts: [u32; 16],
    pub widths: [u32; 16],
}
