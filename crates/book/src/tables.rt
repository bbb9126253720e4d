// What is asked of a table of patterns.
ghost use Rattle.std.specs.Prelude.{◌≡◌, ◌≤◌, length};
ghost use Rattle.book.specs.Fits.{IsFitAnswer};
ghost use Rattle.book.specs.Tables.{Checked};

use crate::alphabet::Alphabet;
use crate::fault::TableFault;
use crate::table::PatternTable;

// So many patterns a table has at most.
const PATTERNS: usize = 32;

impl<'p, A: Alphabet> PatternTable<'p, A> {
    // The table of these patterns, refused where there are more than 32.
    pub fn check(patterns: &'p [A::Pattern]) -> Result<PatternTable<'p, A>, TableFault>
        ensures { Checked patterns.now result }
    {
        if patterns.len() > PATTERNS {
            return Err(TableFault::TooManyPatterns);
        }
        Ok(PatternTable { patterns })
    }

    // How many patterns there are.
    pub fn count(&self) -> u8
        ensures is { result ≡ length self.now.patterns.now }
        ensures few { result ≤ 32 }
    {
        self.patterns.len() as u8
    }

    // Whether the table has a pattern of that number and it fits the event.
    pub fn fits(&self, number: u8, event: A::Event) -> bool
        ensures { IsFitAnswer A.Alphabet.fits A.Alphabet.test self.now.patterns.now number event result }
    {
        self.patterns
            .get(number as usize)
            .is_some_and(|pattern| A::fit(*pattern, event))
    }
}
