// The reader of a text: hands out its lines one by one, each as a part of the text.
ghost use Rattle.std.specs.Prelude.{◌≤◌, length};

// A text, how far it is read, and how many lines that was. It holds a place and not the rest of the text, since the
// place bounds the count of lines.
#[derive(Drop)]
pub struct Lines<'a> {
    text: &'a [u8],
    place: usize,
    count: usize,
    ghost within: { place ≤ length text.now },
    ghost counted: { count ≤ place },
}

// A line without its line feed, and its number from 1.
#[derive(Clone, Copy)]
pub struct Line<'a> {
    pub number: usize,
    pub bytes: &'a [u8],
}

impl<'a> Lines<'a> {
    ghost use Rattle.std.specs.Prelude.{◌≡◌, ◌==◌, position};
    ghost use Rattle.text.specs.Lines.{line_feed, Reads};

    pub fn new(text: &'a [u8]) -> Lines<'a>
        ensures { Reads text.now result }
    {
        Lines {
            text,
            place: 0,
            count: 0,
        }
    }

    // Where the first line feed of a text stands.
    fn first_feed(text: &[u8]) -> Option<usize>
        ensures { result ≡ position (λ c. c == line_feed) text.now }
    {
        text.iter().position(|character| *character == b'\n')
    }
}

impl<'a> Iterator for Lines<'a> {
    ghost use Rattle.std.specs.Iterator.{item_count};
    ghost use Rattle.text.specs.Lines.{lines_of, left, Handed};

    type Item = Line<'a>;

    ghost next_gives = { λ before line after. Handed before after line };

    ghost remaining = { item_count (λ r. lines_of (left r)) };

    // The next line, or none where the text is read to its end.
    #[tactic(auto, using(crate::proofs::Texts::next_line))]
    fn next(&mut self) -> Option<Line<'a>> {
        let left = &self.text[self.place..];
        if left.is_empty() {
            return None;
        }
        let end = Lines::first_feed(left).unwrap_or(left.len());
        self.place += (end + 1).min(left.len());
        self.count += 1;
        Some(Line {
            number: self.count,
            bytes: &left[..end],
        })
    }
}
