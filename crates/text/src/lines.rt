// The lines of a text.
ghost use Rattle.std.specs.Prelude.{◌≡◌, ◌-◌, ◌≤◌, length, drop};
ghost use Rattle.std.specs.Iterator.{at_most};
ghost use Rattle.text.specs.Outcomes.{line_said, in_nine};

use crate::fault::LineFault;
use crate::reader::rule_line;
use crate::rule_line::RuleLine;
use crate::words::{Words, line_end};

// A line: the text up to where the line ends, and the place where the line begins.
#[derive(Clone, Copy)]
pub struct Line<'t> {
    pub text: &'t [u8],
    pub from: usize,
    ghost inside: { from ≤ length text.now },
}

impl<'t> Line<'t> {
    ghost use Rattle.text.specs.Turns.{outcome_of};

    // Its bytes, from its beginning to its end.
    pub fn bytes(self) -> &'t [u8]
        ensures { result.now ≡ drop self.entry.from self.entry.text.now }
    {
        &self.text[self.from..]
    }

    // Its words.
    pub fn words(self) -> Words<'t>
        ensures text { result.text.now ≡ self.entry.text.now }
        ensures from { result.from ≡ self.entry.from }
    {
        Words::of(self.text, self.from)
    }

    // The rule that its words say, or none where there is no word.
    pub fn rule(self) -> Result<Option<RuleLine>, LineFault>
        ensures { line_said result ≡ in_nine (outcome_of self.entry) }
    {
        rule_line(self.text, self.from)
    }
}

// The lines of a text that are still to come: the next begins at a place. Nothing after the last line feed is no line.
#[derive(Clone, Copy)]
pub struct Lines<'t> {
    text: &'t [u8],
    from: usize,
}

impl<'t> Lines<'t> {
    // All lines of a text.
    pub fn of(text: &'t [u8]) -> Lines<'t>
        ensures text { result.text.now ≡ text.now }
        ensures from { result.from ≡ 0 }
    {
        Lines { text, from: 0 }
    }
}

impl<'t> Iterator for Lines<'t> {
    ghost use Rattle.text.specs.Turns.{NextLine};

    type Item = Line<'t>;

    ghost next_gives = { NextLine };

    ghost remaining = { λ s. at_most (length s.text.now - s.from) };

    fn next(&mut self) -> Option<Line<'t>> {
        let from = self.from;
        if from >= self.text.len() {
            return None;
        }
        let end = line_end(self.text, from);
        self.from = end + 1;
        Some(Line {
            text: &self.text[0..end],
            from,
        })
    }
}
