// Lines put to a book and what is printed for them.
use book::Book;
use calling::request::Results;
use design::couplings::Coupling;
use design::nodes::Node;
use design::tables::Tables;
use kinds::arrival::Arrival;
use refusals::Refusal;
use schedule::Schedule;
use session::{answer, longest_reply};
use timing::windows::Window;
use windows::flags::Flag;

const ONE_PHASE: &[u8] = b"010000006400000000010000000000000028";

// An input and a latch that it feeds, sealed.
const DESIGN: [&[u8]; 5] = [
    b"0100000064000000000200000000000000280000003200000028",
    b"0202000000460000004B",
    b"040100000002000000040000000500000003",
    b"0500010000",
    b"08",
];

const VERDICT: &[u8] =
    b"00FFFF000000000000000000010000\n0000000000000046000000000000004B\n000000000000003C000000000000003C\n\x07";

const NO_WINDOW: Window = Window { begins: 0, ends: 0 };

// Whether each of these lines is answered, in their order.
fn are_answered(
    book: &mut Book,
    tables: &mut Tables<'_>,
    results: &mut Results<'_>,
    lines: &[&[u8]],
    out: &mut [u8],
) -> bool {
    for line in lines {
        if answer(book, tables, results, line, out).is_err() {
            return false;
        }
    }
    true
}

#[test]
fn printed_lines(rt: HostRuntime) {
    let mut schedule = Schedule::blank();
    let mut nodes = [Node::Free; 1];
    let mut couplings = [Coupling::NONE; 0];
    let mut tables = Tables {
        schedule: &mut schedule,
        nodes: &mut nodes,
        couplings: &mut couplings,
    };
    let mut windows = [NO_WINDOW; 1];
    let mut column = [Arrival::NoPath; 1];
    let mut results = Results {
        flags: &mut [],
        windows: &mut windows,
        column: &mut column,
    };
    let mut book = Book::Unopened;
    let mut out = [7; 64];
    assert_eq!(rt;
        answer(&mut book, &mut tables, &mut results, ONE_PHASE, &mut out),
        Ok(3)
    );
    assert!(rt; out.starts_with(b"00\n\x07"));
    let input = b"02010000000000000000";
    assert_eq!(rt;
        answer(&mut book, &mut tables, &mut results, input, &mut out),
        Ok(7)
    );
    assert!(rt; out.starts_with(b"000000\n\x07"));
    assert_eq!(rt;
        answer(&mut book, &mut tables, &mut results, input, &mut out),
        Ok(3)
    );
    assert!(rt; out.starts_with(b"01\n000\n\x07"));
    assert_eq!(rt;
        answer(&mut book, &mut tables, &mut results, b"0701", &mut out),
        Ok(3)
    );
    assert!(rt; out.starts_with(b"0E\n000\n\x07"));
}

#[test]
fn printed_verdict(rt: HostRuntime) {
    let mut schedule = Schedule::blank();
    let mut nodes = [Node::Free; 2];
    let mut couplings = [Coupling::NONE; 0];
    let mut tables = Tables {
        schedule: &mut schedule,
        nodes: &mut nodes,
        couplings: &mut couplings,
    };
    let mut windows = [NO_WINDOW; 2];
    let mut column = [Arrival::NoPath; 2];
    let mut results = Results {
        flags: &mut [],
        windows: &mut windows,
        column: &mut column,
    };
    let mut book = Book::Unopened;
    let mut out = [7; 98];
    assert!(rt; are_answered(&mut book, &mut tables, &mut results, &DESIGN, &mut out));
    assert_eq!(rt; longest_reply(&book), 97);
    out = [7; 98];
    assert_eq!(rt;
        answer(&mut book, &mut tables, &mut results, b"0701", &mut out),
        Ok(97)
    );
    assert!(rt; out.starts_with(VERDICT));
    let mut few = [7; 96];
    assert_eq!(rt;
        answer(&mut book, &mut tables, &mut results, b"0701", &mut few),
        Err(Refusal::Short)
    );
}

#[test]
fn no_line_is_put_without_room_for_its_answer(rt: HostRuntime) {
    let mut schedule = Schedule::blank();
    let mut nodes = [Node::Free; 1];
    let mut couplings = [Coupling::NONE; 0];
    let mut tables = Tables {
        schedule: &mut schedule,
        nodes: &mut nodes,
        couplings: &mut couplings,
    };
    let mut results = Results {
        flags: &mut [],
        windows: &mut [],
        column: &mut [],
    };
    let mut book = Book::Unopened;
    let mut out = [7; 30];
    assert_eq!(rt;
        answer(&mut book, &mut tables, &mut results, ONE_PHASE, &mut out),
        Err(Refusal::Short)
    );
    assert!(rt; out == [7; 30] && !book.is_open());
}
