// The nodes of a draft: rows added, and latches fed.
ghost use Rattle.design.specs.Calls.{input, gate, latch, feed};
ghost use Rattle.design.specs.Effects.{Answered};
ghost use Rattle.states.specs.Counting.{OneNodeMore, Added};
ghost use Rattle.states.specs.Views.{loan_of, draft_table};
ghost use Rattle.states.specs.Typed.{node_answer, done_answer};

use super::Draft;
use super::counts::Counts;
use super::figures::{GREATEST_DELAY, GREATEST_TIME, check_row};
use super::scan::Role;
use design::calls::{Gate, Input, Latch};
use design::couplings::Coupling;
use design::nodes::{Node, Sources};
use refusals::Refusal;
use schedule::Schedule;

impl Draft {
    // Writes a row behind those of the granted nodes, and answers its number; refused where a lent table has fewer rows
    // than `counts`, which count one node more.
    fn add(
        &mut self,
        counts: Counts,
        nodes: &mut [Node],
        couplings: &[Coupling],
        node: Node,
    ) -> Result<u16, Refusal>
        requires { OneNodeMore self.old.counts (Ok counts) }
        ensures { Added self.old.counts nodes.old couplings.now node counts self.new.counts nodes.new result }
    {
        if counts.is_short(nodes, couplings) {
            return Err(Refusal::Short);
        }
        let k = self.counts.nodes;
        nodes[k] = node;
        self.counts = counts;
        Ok(k as u16)
    }

    // Adds an input that switches from its earliest to its latest time, and answers its number.
    pub fn input(
        &mut self,
        schedule: &Schedule,
        nodes: &mut [Node],
        couplings: &[Coupling],
        row: Input,
    ) -> Result<u16, Refusal>
        ensures { Answered draft_table self.old (loan_of schedule.now nodes.old couplings.now) (input row.phase row.earliest row.latest) self.new (loan_of schedule.now nodes.new couplings.now) (node_answer result) }
    {
        let Input {
            phase,
            earliest,
            latest,
        } = row;
        let counts = self.counts.with_node()?;
        check_row(
            schedule,
            phase,
            earliest,
            latest,
            GREATEST_TIME,
            &[earliest, latest],
        )?;
        let input = Node::Input {
            phase,
            earliest,
            latest,
        };
        self.add(counts, nodes, couplings, input)
    }

    // Adds a gate that is driven by 1 to 4 nodes, and answers its number.
    pub fn gate(
        &mut self,
        schedule: &Schedule,
        nodes: &mut [Node],
        couplings: &[Coupling],
        row: Gate<'_>,
    ) -> Result<u16, Refusal>
        ensures { Answered draft_table self.old (loan_of schedule.now nodes.old couplings.now) (gate row.entry.phase row.entry.least row.entry.greatest row.entry.sources.now) self.new (loan_of schedule.now nodes.new couplings.now) (node_answer result) }
    {
        let Gate {
            phase,
            least,
            greatest,
            sources: list,
        } = row;
        let counts = self.counts.with_node()?;
        check_row(
            schedule,
            phase,
            least,
            greatest,
            GREATEST_DELAY,
            &[least, greatest],
        )?;
        let sources = Sources::try_from(list)?;
        if self.counts.any_other(Role::Any, nodes, list) {
            return Err(Refusal::Node);
        }
        let gate = Node::Gate {
            phase,
            least,
            greatest,
            sources,
        };
        self.add(counts, nodes, couplings, gate)
    }

    // Adds a latch without a source, and answers its number.
    pub fn latch(
        &mut self,
        schedule: &Schedule,
        nodes: &mut [Node],
        couplings: &[Coupling],
        row: Latch,
    ) -> Result<u16, Refusal>
        ensures { Answered draft_table self.old (loan_of schedule.now nodes.old couplings.now) (latch row.phase row.least row.greatest row.setup row.hold) self.new (loan_of schedule.now nodes.new couplings.now) (node_answer result) }
    {
        let Latch {
            phase,
            least,
            greatest,
            setup,
            hold,
        } = row;
        let counts = self.counts.with_node()?;
        check_row(
            schedule,
            phase,
            least,
            greatest,
            GREATEST_DELAY,
            &[least, greatest, setup, hold],
        )?;
        let latch = Node::Latch {
            phase,
            least,
            greatest,
            setup,
            hold,
            source: None,
        };
        self.add(counts, nodes, couplings, latch)
    }

    // Gives a latch its source, in place of an earlier one.
    pub fn feed(
        &mut self,
        schedule: &Schedule,
        nodes: &mut [Node],
        couplings: &[Coupling],
        latch: u16,
        source: u16,
    ) -> Result<(), Refusal>
        ensures { Answered draft_table self.old (loan_of schedule.now nodes.old couplings.now) (feed latch source) self.new (loan_of schedule.now nodes.new couplings.now) (done_answer result) }
    {
        let counts = self.counts;
        if counts.is_other(Role::Latch, nodes, latch) || counts.is_other(Role::Any, nodes, source) {
            return Err(Refusal::Node);
        }
        if counts.is_short(nodes, couplings) {
            return Err(Refusal::Short);
        }
        nodes[usize::from(latch)].feed(source);
        Ok(())
    }
}
