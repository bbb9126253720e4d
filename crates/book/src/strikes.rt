// The last rule is struck from the rules of a book.
ghost use Rattle.std.specs.Prelude.{◌≡◌};
ghost use Rattle.book.specs.Rules.{held};
ghost use Rattle.book.specs.Strikes.{Struck};

use crate::fault::StrikeFault;
use crate::rules::Rules;

impl Rules {
    // Takes the last rule away: how many remain.
    pub(crate) fn strike(&mut self) -> Result<usize, StrikeFault>
        ensures says { Struck held self.old self.new result }
        ensures over { self.new.patterns ≡ self.old.patterns }
    {
        self.rows.pop().ok_or(StrikeFault::NoRule)?;
        Ok(self.rows.len())
    }
}
