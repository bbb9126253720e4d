// The column of an event, and what it is worked out from.
ghost use Rattle.std.specs.Prelude.{◌≡◌, ◌+◌, ◌<◌, ◌≤◌, length};
ghost use Rattle.grammar.specs.Binarise.{binarised};
ghost use Rattle.book.specs.Books.{closed_book};
ghost use Rattle.chart.specs.Table.{column_place};
ghost use Rattle.chart.specs.Weights.{Weighs};

use crate::weighed::WeighedRule;
use book::alphabet::Alphabet;
use book::books::ClosedBook;
use weighing::weighing::Weighing;

// The column of the event of that number in a table of weights, by a book and its weighed strict rules. The table has room for it.
// A method that writes says that all but the weights stays (SameColumn): the weights are a part of it, so no type can say it for them.
#[derive(Drop)]
pub(crate) struct Column<'t, 'p, A: Alphabet, W: Weighing> {
    pub(crate) book: &'t ClosedBook<'p, A>,
    pub(crate) rules: &'t [WeighedRule<W::Value>],
    pub(crate) weights: &'t mut [W::Value],
    pub(crate) symbols: usize,
    pub(crate) end: usize,
    ghost weighed: { ∥ Weighs W.Weighing.ops (closed_book book.now) rules.now ∥₁ },
    ghost counts: { symbols ≡ (binarised (closed_book book.now)).symbols },
    ghost least: { 64 ≤ symbols },
    ghost most: { symbols ≤ 128 },
    ghost some: { 0 < end },
    ghost few: { end ≤ 256 },
    ghost long: { column_place symbols (end + 1) ≤ length weights.now },
}
