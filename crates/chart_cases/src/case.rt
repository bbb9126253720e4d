// The cases over bytes.
use std::alloc::{AllocError, Global};

// A case: the names of its heads, its patterns, its rules, and the traces to print tables and totals of.
#[derive(Drop)]
pub struct Case<'t> {
    pub name: &'t str,
    pub heads: Vec<&'t str>,
    pub patterns: &'t str,
    pub rules: String,
    pub tables: Vec<&'t str>,
    pub totals: Vec<&'t str>,
}

// A line at the end of a text. By `push_str`, since a list can be almost all lines, which `writeln` takes half as long again to put down.
pub(crate) fn push_line(text: &mut String, line: &str) -> Result<(), AllocError> {
    text.push_str(line)?;
    text.push_str("\n")
}

impl<'t> Case<'t> {
    // A case without a line.
    pub(crate) fn new(heap: Global) -> Case<'t> {
        Case {
            name: "",
            heads: Vec::new(heap),
            patterns: "",
            rules: String::new(heap),
            tables: Vec::new(heap),
            totals: Vec::new(heap),
        }
    }

    // Takes in a line of the case.
    pub(crate) fn read(&mut self, heap: Global, line: &'t str) -> Result<(), AllocError> {
        if let Some(name) = line.strip_prefix("case ") {
            self.name = name;
        } else if let Some(names) = line.strip_prefix("names ") {
            self.heads = names.split(' ').collect(heap)?;
        } else if let Some(patterns) = line.strip_prefix("patterns ") {
            self.patterns = patterns;
        } else if let Some(trace) = line.strip_prefix("table ") {
            self.tables.push(trace)?;
        } else if let Some(trace) = line.strip_prefix("totals ") {
            self.totals.push(trace)?;
        } else {
            push_line(&mut self.rules, line)?;
        }
        Ok(())
    }
}
