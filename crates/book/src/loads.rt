// Rule text is loaded into the plain rows of a book, line by line.
ghost use Rattle.std.specs.Prelude.{◌≡◌, ℕ, []};
ghost use Rattle.text.specs.Turns.{words_of, outcome_of};
ghost use Rattle.book.specs.Rules.{held};
ghost use Rattle.book.specs.Loads.{line_fault, first_place, offer_line, line_is, load, load_is};

use crate::fault::LoadFault;
use crate::rules::Rules;
use text::fault::LineFault;
use text::lines::{Line, Lines};

impl From<LineFault> for LoadFault {
    ghost from_gives = { λ e r. r ≡ line_fault e };

    fn from(e: LineFault) -> LoadFault {
        LoadFault::Line(e)
    }
}

// The place of the first word of a line, or where the line begins if it has none.
fn first_place(line: Line<'_>) -> usize
    ensures { (words_of line.entry ≡ [] → ⊥) → result ≡ first_place (words_of line.entry) }
{
    line.words().next().map_or(line.from, |word| word.place)
}

impl Rules {
    // Offers the rule that the words of a line say: whether they say one.
    fn load_words(&mut self, line: Line<'_>) -> Result<bool, LoadFault>
        ensures is { (n : ℕ) → line_is n (held self.new) result ≡ offer_line self.old.patterns (held self.old) n (first_place (words_of line.entry)) (outcome_of line.entry) }
        ensures over { self.new.patterns ≡ self.old.patterns }
    {
        let Some(rule) = line.rule()? else {
            return Ok(false);
        };
        // A match, and no map_err: that hides from the proof what was refused.
        match self.offer(rule.head(), rule.right(), rule.cost()) {
            Ok(_) => Ok(true),
            Err(_) => Err(LoadFault::Refused(first_place(line))),
        }
    }

    // Offers the rule of one line: whether the line has one. An empty line is not asked for its words, since a text may have many.
    fn load_line(&mut self, line: Line<'_>) -> Result<bool, LoadFault>
        ensures is { (n : ℕ) → line_is n (held self.new) result ≡ offer_line self.old.patterns (held self.old) n (first_place (words_of line.entry)) (outcome_of line.entry) }
        ensures over { self.new.patterns ≡ self.old.patterns }
    {
        if line.from >= line.text.len() {
            Ok(false)
        } else {
            self.load_words(line)
        }
    }

    // Offers the rules of a text, up to the first line that is refused: how many lines were offered.
    pub(crate) fn load(&mut self, text: &[u8]) -> Result<usize, LoadFault>
        ensures is { load_is (held self.new) result ≡ load self.old.patterns (held self.old) text.now }
        ensures over { self.new.patterns ≡ self.old.patterns }
    {
        let mut lines = 0;
        for line in Lines::of(text) {
            if self.load_line(line)? {
                lines += 1;
            }
        }
        Ok(lines)
    }
}
