// Texts loaded into a book and written out of it.
use book::Book;
use design::couplings::Coupling;
use design::nodes::Node;
use design::tables::Tables;
use listing::write::write;
use loading::load::load;
use refusals::{Layer, Refusal};
use schedule::Schedule;

// A table with every kind of row: an input, a gate with four sources, a gate, two latches of which one is fed by
// itself, and two couplings.
const TABLE: &[u8] = b"0100000064000000080200000000000000280000003C00000028
02010000005A0000005F
0401000000020000000400000005000000FF
030200000000000FFFFF040000000100000001
03010000000A0000000B010002
040200000003000000040000000500000003
0500040004
06000200030000000000000009
06000300000000000A000FFFFF
";

// Loads a text and writes what it made into `out`: how many lines it had, and what the writing answered.
fn rewritten(text: &[u8], out: &mut [u8]) -> (Option<usize>, Result<usize, Refusal>) {
    let mut schedule = Schedule::blank();
    let mut nodes = [Node::Free; 6];
    let mut couplings = [Coupling::NONE; 3];
    let mut tables = Tables {
        schedule: &mut schedule,
        nodes: &mut nodes,
        couplings: &mut couplings,
    };
    let (book, result) = load(&mut tables, text);
    let written = match &book {
        Book::Unopened => Err(Refusal::Order),
        Book::Draft(draft) => write(draft, &schedule, &nodes, &couplings, out),
        Book::Sealed(sealed) => write(sealed, &schedule, &nodes, &couplings, out),
    };
    (result.ok(), written)
}

#[test]
fn a_written_text_is_the_one_loaded(rt: HostRuntime) {
    let mut out = [7; 280];
    assert_eq!(rt; rewritten(TABLE, &mut out), (Some(9), Ok(279)));
    assert!(rt; out.starts_with(TABLE));
    assert!(rt; out.ends_with(&[7]));
}

#[test]
fn a_buffer_that_is_a_byte_too_short(rt: HostRuntime) {
    let mut out = [7; 278];
    assert_eq!(rt; rewritten(TABLE, &mut out), (Some(9), Err(Refusal::Short)));
    assert!(rt; out == [7; 278]);
}

// Loads a text on small tables, and gives how many nodes are granted then and the fault.
fn faulted(text: &[u8]) -> (usize, usize, Option<Layer>, u8) {
    let mut schedule = Schedule::blank();
    let mut nodes = [Node::Free; 2];
    let mut couplings = [Coupling::NONE; 0];
    let mut tables = Tables {
        schedule: &mut schedule,
        nodes: &mut nodes,
        couplings: &mut couplings,
    };
    let (book, result) = load(&mut tables, text);
    let granted = book.counts().map_or(99, |counts| counts.nodes);
    match result {
        Ok(lines) => (granted, lines, None, 0),
        Err(fault) => (granted, fault.line, Some(fault.layer), fault.refusal.into()),
    }
}

#[test]
fn loading_stops_at_a_refusal(rt: HostRuntime) {
    assert_eq!(rt; faulted(b""), (99, 0, None, 0));
    assert_eq!(rt; faulted(b"08\n"), (99, 1, Some(Layer::Book), 14));
    assert_eq!(rt;
        faulted(b"010000006400000000010000000000000028"),
        (0, 1, None, 0)
    );
    assert_eq!(rt;
        faulted(
            b"010000006400000000010000000000000028\n02010000000000000000\n02020000000000000000\n08\n",
        ),
        (1, 3, Some(Layer::Book), 2)
    );
    assert_eq!(rt;
        faulted(b"010000006400000000010000000000000028\n08\n0701\n"),
        (0, 3, Some(Layer::Book), 14)
    );
    assert_eq!(rt;
        faulted(b"010000006400000000010000000000000028\n\n08\n"),
        (0, 2, Some(Layer::Digits), 12)
    );
    assert_eq!(rt;
        faulted(b"010000006400000000010000000000000028\n08\n09\n0A\n"),
        (0, 4, Some(Layer::Frame), 13)
    );
}
