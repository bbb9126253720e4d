// Open and closed books over any alphabet. The rules themselves know no alphabet, so their calls are proved and built once for all.
ghost use Rattle.std.specs.Prelude.{◌≡◌, length};

use crate::alphabet::Alphabet;
use crate::converted::Converted;
use crate::rules::Rules;
use crate::table::PatternTable;

// A book that takes rules. Closing it gives a closed book; no chart is cut from an open one. A call that changes the rules says that the
// table stays: both are parts of the book, so its type can't say it.
#[derive(Drop)]
pub struct OpenBook<'p, A: Alphabet> {
    pub(crate) table: PatternTable<'p, A>,
    pub(crate) rules: Rules,
    ghost over: { rules.patterns ≡ length table.patterns.now },
}

// A book that charts are cut from. It takes no rule, and has the strict form of those that it holds.
#[derive(Drop)]
pub struct ClosedBook<'p, A: Alphabet> {
    pub(crate) table: PatternTable<'p, A>,
    pub(crate) converted: Converted,
    ghost over: { converted.rules.patterns ≡ length table.patterns.now },
}
