// Rows written into lent tables behind the back of a book.
ghost use Rattle.std.specs.Prelude.{◌≡◌};
ghost use Rattle.design.specs.Table.{loan_in, SameTables};
ghost use Rattle.printing.specs.Overwriting.{sources_in_record, latch_in, node_in, coupling_in, nodes_with, couplings_with, overwritten};

use design::couplings::Coupling;
use design::nodes::{Node, Sources};
use design::tables::Tables;
use reading::listed::{figure_at, source_at};

// How many bytes a record has that says what one row is overwritten with.
pub(crate) const RECORD: usize = 22;

// The sources of a gate as a record lists them, whatever their count is.
fn sources_in(bytes: &[u8; RECORD]) -> Sources
    ensures { result ≡ sources_in_record bytes.now }
{
    Sources {
        count: bytes[21],
        nodes: [
            source_at(bytes, 12),
            source_at(bytes, 14),
            source_at(bytes, 16),
            source_at(bytes, 18),
        ],
    }
}

// The row of the node table that a record writes, if it writes one there.
fn node_in(bytes: &[u8; RECORD]) -> Option<Node>
    ensures { result ≡ node_in bytes.now }
{
    let phase = bytes[3];
    match bytes[0] {
        0 => Some(Node::Free),
        1 => Some(Node::Input {
            phase,
            earliest: figure_at(bytes, 4),
            latest: figure_at(bytes, 8),
        }),
        2 => Some(Node::Gate {
            phase,
            least: figure_at(bytes, 4),
            greatest: figure_at(bytes, 8),
            sources: sources_in(bytes),
        }),
        3 => Some(latch_in(bytes, None)),
        4 => Some(latch_in(bytes, Some(source_at(bytes, 20)))),
        _ => None,
    }
}

// A latch as a record says it, with the source that it has.
fn latch_in(bytes: &[u8; RECORD], source: Option<u16>) -> Node
    ensures { result ≡ latch_in bytes.now source }
{
    Node::Latch {
        phase: bytes[3],
        least: figure_at(bytes, 4),
        greatest: figure_at(bytes, 8),
        setup: figure_at(bytes, 12),
        hold: figure_at(bytes, 16),
        source,
    }
}

// The row of the coupling table that a record writes, if it writes one there.
fn coupling_in(bytes: &[u8; RECORD]) -> Option<Coupling>
    ensures { result ≡ coupling_in bytes.now }
{
    if bytes[0] != 5 {
        return None;
    }
    Some(Coupling {
        victim: source_at(bytes, 4),
        aggressor: source_at(bytes, 6),
        assisting: figure_at(bytes, 8),
        opposing: figure_at(bytes, 12),
    })
}

// Writes the row that a record says into the node table, if it says one and the table has it.
fn overwrite_node(bytes: &[u8; RECORD], nodes: &mut [Node])
    ensures { nodes.new ≡ nodes_with bytes.now nodes.old }
{
    let place = usize::from(source_at(bytes, 1));
    let Some(node) = node_in(bytes) else {
        return;
    };
    if place < nodes.len() {
        nodes[place] = node;
    }
}

// Writes the row that a record says into the coupling table, likewise.
fn overwrite_coupling(bytes: &[u8; RECORD], couplings: &mut [Coupling])
    ensures { couplings.new ≡ couplings_with bytes.now couplings.old }
{
    let place = usize::from(source_at(bytes, 1));
    let Some(coupling) = coupling_in(bytes) else {
        return;
    };
    if place < couplings.len() {
        couplings[place] = coupling;
    }
}

// Writes the rows that records say, one after another.
pub(crate) fn overwrite(tables: &mut Tables<'_>, records: &[u8])
    ensures rows { loan_in tables.new ≡ overwritten (loan_in tables.old) records.now }
    ensures same_tables { SameTables tables.old tables.new }
{
    let (records, _) = records.as_chunks::<RECORD>();
    let nodes = &mut *tables.nodes;
    let couplings = &mut *tables.couplings;
    for bytes in records {
        overwrite_node(bytes, nodes);
        overwrite_coupling(bytes, couplings);
    }
}
