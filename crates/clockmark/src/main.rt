// clockmark: reads a text of frames from standard input, and prints an answer to each line read.
#![tactic(auto)]

mod answers;

use answers::mark;
use std::io;
use std::io::{BufWriter, Write};

fn main(rt: HostRuntime) -> io::Result<()> {
    let mut out = BufWriter::new(rt.alloc(), rt.stdout())?;
    mark(rt.alloc(), rt.stdin(), &mut out)?;
    out.flush()
}
