// The stored cases.
use std::alloc::{AllocError, Global};
use std::fmt;

// A case: its number of patterns, the rules to load, the rules to offer after them, and the lines that are expected.
#[derive(Drop)]
pub struct Case<'t> {
    pub name: &'t str,
    pub patterns: usize,
    pub rules: String,
    pub offers: Vec<&'t str>,
    pub expected: String,
}

impl fmt::Display for Case<'_> {
    fn fmt<W: fmt::Write>(&self, f: &mut fmt::Formatter<W>) -> fmt::Result {
        write!(f, "{}", self.name)
    }
}

// A line at the end of a text. By `push_str`, since a list can be almost all lines, which `writeln` takes half as long again to put down.
fn push_line(text: &mut String, line: &str) -> Result<(), AllocError> {
    text.push_str(line)?;
    text.push_str("\n")
}

impl<'t> Case<'t> {
    // A case without a line.
    pub(crate) fn new(heap: Global) -> Case<'t> {
        Case {
            name: "",
            patterns: 0,
            rules: String::new(heap),
            offers: Vec::new(heap),
            expected: String::new(heap),
        }
    }

    // Takes in a line of the case.
    pub(crate) fn read(&mut self, line: &'t str) -> anyhow::Result<()> {
        if let Some(name) = line.strip_prefix("case ") {
            self.name = name;
        } else if let Some(count) = line.strip_prefix("patterns ") {
            self.patterns = count.parse::<usize>()?;
        } else if line.starts_with("H") {
            push_line(&mut self.rules, line)?;
        } else {
            self.expect(line)?;
        }
        Ok(())
    }

    // Takes in a line that is expected, with the rule to offer where it says that one is refused.
    fn expect(&mut self, line: &'t str) -> anyhow::Result<()> {
        if let Some(refusal) = line.strip_prefix("refused ")
            && let Some((_, rule)) = refusal.split_once(' ')
        {
            self.offers.push(rule)?;
        }
        push_line(&mut self.expected, line)?;
        Ok(())
    }
}
