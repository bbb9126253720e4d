// The call for a reading, on a table that is marked beforehand.
use anyhow::Context;
use book::alphabet::Alphabet;
use book::books::ClosedBook;
use chart::chart::Chart;
use chart::fault::ReadingFault;
use chart::node::Node;
use chart::reading::reading;
use programs::totals::{feed_all, room};
use std::alloc::{AllocError, Global};
use std::fmt;
use weighing::kinds::YesNo;

// Stands in every place before the call. No reading has such a node.
const MARKER: Node = Node {
    rule: u16::MAX,
    first: u16::MAX,
    count: u16::MAX,
};

// What a call for a reading answered.
#[derive(Clone, Copy)]
pub struct Answer(Result<Option<usize>, ReadingFault>);

impl fmt::Display for Answer {
    fn fmt<W: fmt::Write>(&self, f: &mut fmt::Formatter<W>) -> fmt::Result {
        match self.0 {
            Ok(None) => write!(f, "none"),
            Ok(Some(count)) => write!(f, "nodes {count}"),
            Err(fault) => write!(f, "refused {}", fault.number()),
        }
    }
}

// What a call for a reading answered, and the table that it left.
#[derive(Drop)]
pub struct Filled {
    pub answer: Answer,
    table: Vec<Node>,
}

impl Filled {
    // The call for the reading of a trace, on a table of so many places.
    pub(crate) fn of<A: Alphabet>(
        heap: Global,
        book: &ClosedBook<A>,
        trace: &[A::Event],
        places: usize,
    ) -> anyhow::Result<Filled> {
        let weights = room(book, trace.len()).context("a trace is too long")?;
        let mut weights = vec![in heap; false; weights]?;
        let mut chart: Chart<A, YesNo> = Chart::cut(book, &mut weights);
        feed_all(&mut chart, trace)?;
        let mut table = vec![in heap; MARKER; places]?;
        let answer = Answer(reading(&chart, &mut table));
        Ok(Filled { answer, table })
    }

    // The nodes that were written: those before the first mark.
    pub(crate) fn written(&self) -> &[Node] {
        self.table
            .split(|node| *node == MARKER)
            .next()
            .unwrap_or(&[])
    }

    // How many places are marked still.
    pub(crate) fn untouched(&self) -> usize {
        self.table.iter().filter(|node| **node == MARKER).count()
    }

    // Whether each place past those written is marked still.
    pub(crate) fn is_sound(&self) -> bool {
        let mut past = self.table.iter().skip(self.written().len());
        past.all(|node| *node == MARKER)
    }

    // The line of the answer, and a line for each node that was written.
    pub(crate) fn lines(&self, heap: Global) -> Result<String, AllocError> {
        let mut out = format!(in heap; "{}\n", self.answer)?;
        for node in self.written() {
            writeln!(out, "node {} {} {}", node.rule, node.first, node.count)?;
        }
        Ok(out)
    }
}
