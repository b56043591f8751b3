// The lines of a table's text, written one after another.
ghost use Rattle.std.specs.Prelude.{◌≡◌, ◌+◌, ◌*◌, ◌≤◌, None, [], ◌∷◌, ◌++◌, map, length, take, slice_index};
ghost use Rattle.std.specs.List.{flat_map, range_with_len};
ghost use Rattle.frames.specs.Frames.{bytes_in};
ghost use Rattle.frames.specs.Contents.{content_of, unwritten};
ghost use Rattle.loading.specs.Writing.{schedule_frame, node_frame, feed_frame, feed_frames, couple_frame};
ghost use Rattle.listing.specs.Appending.{gate_sources, Appends};

use design::couplings::Coupling;
use design::nodes::Node;
use frames::Frame;
use schedule::Schedule;
use schedule::figures::Figures;
use text::spelling::spell_line;

// How many bytes the longest frame of a table has: a schedule of 16 phases.
const LONGEST_WRITTEN: usize = 138;

// A text that is written into the first places of a lent buffer: `end` counts its bytes. Lines that do not end within
// the buffer are only counted, so a listing over an empty buffer tells how many bytes the text has.
#[derive(Drop)]
pub(crate) struct Listing<'a> {
    out: &'a mut [u8],
    pub(crate) end: usize,
}

impl<'a> Listing<'a> {
    pub(crate) fn new(out: &'a mut [u8]) -> Listing<'a>
        ensures same_buffer { result.out.ghost_name ≡ out.entry.ghost_name }
        ensures same_bytes { result.out.now ≡ out.old }
        ensures empty { result.end ≡ 0 }
    {
        Listing { out, end: 0 }
    }

    // Puts the line of a frame that is no longer than the longest one of a table.
    fn put_line(&mut self, frame: &Frame<'_>)
        requires { unwritten (content_of frame.now) LONGEST_WRITTEN ≡ None }
        ensures { Appends (content_of frame.now ∷ []) self.old self.new }
    {
        let mut room = [0; LONGEST_WRITTEN];
        // The frame fits the room, so it is always written.
        let Ok(count) = frames::write::write(frame, &mut room) else {
            return;
        };
        // A line past the buffer is counted all the same, so what is written and what is not goes on by one rule.
        match spell_line(&room[..count], self.out, self.end) {
            Ok(end) => self.end = end,
            Err(_) => self.end = self.end.saturating_add(2 * count + 1),
        }
    }

    fn put_schedule(&mut self, schedule: &Schedule)
        ensures lines { Appends (schedule_frame schedule.now ∷ []) self.old self.new }
        ensures near { self.new.end ≤ self.old.end + 277 }
    {
        let figures = Figures::from(schedule);
        let bytes = bytes_of_phases(&figures);
        let count = usize::from(figures.count);
        self.put_line(&Frame::Schedule {
            period: figures.period,
            proximity: figures.proximity,
            count: figures.count,
            phases: bytes[..count].as_flattened().as_flattened(),
        });
    }

    fn put_node(&mut self, node: &Node)
        ensures lines { Appends (node_frame node.now) self.old self.new }
        ensures near { self.new.end ≤ self.old.end + 39 }
        ensures few { length (gate_sources node.now) ≤ 4 }
    {
        match *node {
            Node::Free => {}
            Node::Input {
                phase,
                earliest,
                latest,
            } => self.put_line(&Frame::Input {
                phase,
                earliest,
                latest,
            }),
            Node::Gate {
                phase,
                least,
                greatest,
                sources,
            } => {
                let sources = sources.list();
                let bytes = bytes_of_sources(sources);
                self.put_line(&Frame::Gate {
                    phase,
                    least,
                    greatest,
                    count: sources.len() as u8,
                    sources: bytes[..sources.len()].as_flattened(),
                });
            }
            Node::Latch {
                phase,
                least,
                greatest,
                setup,
                hold,
                ..
            } => self.put_line(&Frame::Latch {
                phase,
                least,
                greatest,
                setup,
                hold,
            }),
        }
    }

    // Puts the feed of a latch; a latch without a source, or any other row, has none.
    fn put_feed(&mut self, latch: u16, node: &Node)
        ensures lines { Appends (feed_frame latch node.now) self.old self.new }
        ensures near { self.new.end ≤ self.old.end + 11 }
    {
        if let Node::Latch {
            source: Some(source),
            ..
        } = *node
        {
            self.put_line(&Frame::Feed { latch, source });
        }
    }

    fn put_coupling(&mut self, coupling: &Coupling)
        ensures lines { Appends (couple_frame coupling.now ∷ []) self.old self.new }
        ensures near { self.new.end ≤ self.old.end + 27 }
    {
        self.put_line(&Frame::Couple {
            victim: coupling.victim,
            aggressor: coupling.aggressor,
            assisting: coupling.assisting,
            opposing: coupling.opposing,
        });
    }

    // Puts the lines of a table: its schedule, its nodes, the feeds of its latches, its couplings. They are only read, so
    // they are lent apart: a `Tables` would borrow them for writing.
    #[tactic(auto, using(crate::proofs::Joins::appends_none))]
    pub(crate) fn put_table(&mut self, schedule: &Schedule, nodes: &[Node], couplings: &[Coupling])
        requires { length nodes.now ≤ 4096 }
        ensures lines { Appends (schedule_frame schedule.now ∷ (flat_map node_frame nodes.now ++ (feed_frames 0 nodes.now ++ map couple_frame couplings.now))) self.old self.new }
        ensures near { self.new.end ≤ self.old.end + (277 + (48 * length nodes.now + 27 * length couplings.now)) }
    {
        self.put_schedule(schedule);
        // Three loops, since the lines of a node, of a feed and of a coupling are put by methods of their own.
        for node in nodes {
            self.put_node(node);
        }
        for (k, node) in nodes.iter().enumerate() {
            self.put_feed(k as u16, node);
        }
        for coupling in couplings {
            self.put_coupling(coupling);
        }
    }
}

// The start and the width of each place for a phase in bytes.
fn bytes_of_phases(figures: &Figures) -> [[[u8; 4]; 2]; 16]
    ensures { result ≡ map (λ k. bytes_in 4 (slice_index figures.now.starts k) ∷ bytes_in 4 (slice_index figures.now.widths k) ∷ []) (range_with_len 0 16) }
{
    let mut bytes = [[[0; 4]; 2]; 16];
    // By index: a closure for `array::from_fn` would read two arrays, and is not known to be the same at each call.
    for (k, start) in figures.starts.iter().enumerate() {
        bytes[k] = [start.to_be_bytes(), figures.widths[k].to_be_bytes()];
    }
    bytes
}

// Node numbers in bytes.
fn bytes_of_sources(sources: &[u16]) -> [[u8; 2]; 4]
    requires { length sources.now ≤ 4 }
    ensures { take (length sources.now) result ≡ map (bytes_in 2) sources.now }
{
    let mut bytes = [[0; 2]; 4];
    // By index: only as many places are filled as there are sources.
    for (k, source) in sources.iter().enumerate() {
        bytes[k] = source.to_be_bytes();
    }
    bytes
}
