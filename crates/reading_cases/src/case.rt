// The stored cases over bytes.
use crate::filled::Filled;
use anyhow::Context;
use book::alphabet::Bytes;
use cases::books::loaded;
use programs::patterns::PATTERNS;
use std::alloc::Global;
use std::fmt;

// A case: its number of patterns, its rules, its trace, the length of the table of nodes, and the lines that are expected.
#[derive(Drop)]
pub struct Case<'t> {
    pub name: &'t str,
    pub patterns: usize,
    pub rules: String,
    pub trace: &'t str,
    pub places: usize,
    pub expected: String,
}

impl fmt::Display for Case<'_> {
    fn fmt<W: fmt::Write>(&self, f: &mut fmt::Formatter<W>) -> fmt::Result {
        write!(f, "{}", self.name)
    }
}

impl<'t> Case<'t> {
    // The case of these lines.
    pub(crate) fn of(heap: Global, lines: &[&'t str]) -> anyhow::Result<Case<'t>> {
        let mut case = Case {
            name: "",
            patterns: 0,
            rules: String::new(heap),
            trace: "",
            places: 0,
            expected: String::new(heap),
        };
        for line in lines {
            case.read(line)?;
        }
        Ok(case)
    }

    // Takes in a line of the case.
    fn read(&mut self, line: &'t str) -> anyhow::Result<()> {
        if let Some(name) = line.strip_prefix("case ") {
            self.name = name;
        } else if let Some(count) = line.strip_prefix("patterns ") {
            self.patterns = count.parse::<usize>()?;
        } else if let Some(trace) = line.strip_prefix("trace ") {
            self.trace = trace;
        } else if let Some(places) = line.strip_prefix("table ") {
            self.places = places.parse::<usize>()?;
        } else if line.starts_with("H") {
            writeln!(self.rules, "{line}")?;
        } else {
            writeln!(self.expected, "{line}")?;
        }
        Ok(())
    }

    // The call for the reading.
    pub(crate) fn filled(&self, heap: Global) -> anyhow::Result<Filled> {
        let patterns = PATTERNS
            .get(..self.patterns)
            .context("a case has more than 32 patterns")?;
        let book = loaded::<Bytes>(patterns, self.rules.as_bytes())?.0.close();
        Filled::of(heap, &book, self.trace.as_bytes(), self.places)
    }

    // Whether the answer and the nodes are those expected, and nothing else was written.
    pub(crate) fn agrees(&self, heap: Global) -> anyhow::Result<bool> {
        let filled = self.filled(heap)?;
        Ok(filled.is_sound() && filled.lines(heap)? == self.expected)
    }
}
