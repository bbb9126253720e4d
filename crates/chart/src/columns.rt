// How the column of an event is worked out.
ghost use Rattle.std.specs.Prelude.{◌≡◌, ℕ, ◌+◌, ◌-◌, ◌<◌, ◌≤◌, List, [], ◌∷◌, ◌++◌, length};
ghost use Rattle.book.specs.Books.{closed_book, closed_fits};
ghost use Rattle.chart.specs.Table.{column_place, cell_place, cell_at, SameOutside};
ghost use Rattle.chart.specs.Charts.{HoldsChart};
ghost use Rattle.chart.specs.Inner.{SameColumn, Added, AddedStarts, Cleared, over_event, over_parts, pairs_sum, PairsWithin};

use crate::cells::{add, cell_place, column_place, product};
use crate::column::Column;
use crate::pairs::{Pair, Pairs};
use book::alphabet::Alphabet;
use weighing::weighing::Weighing;

impl<'t, 'p, A: Alphabet, W: Weighing> Column<'t, 'p, A, W> {
    // Where the cell of a start begins, in this column or an earlier one.
    pub(crate) fn cell(&self, end: usize, start: usize) -> usize
        requires { (start < end) × (end ≤ self.now.end) }
        ensures is { result ≡ cell_place self.now.symbols end start }
        ensures room { result + self.now.symbols ≤ length self.now.weights.now }
        ensures small { result ≤ 10000000 }
    {
        cell_place(self.symbols, end, start)
    }

    // Writes zero to the cells of the column. A loop, since the library's fill asks for a clone that never fails, and a value of a
    // weighing is only known to be Copy; with fill_with, which asks for none, two needs of the proof did not close.
    fn clear(&mut self)
        ensures cleared { Cleared W.Weighing.ops (column_place self.old.symbols self.old.end) (column_place self.old.symbols (self.old.end + 1)) self.old.weights.now self.new.weights.now }
        ensures same { SameColumn self.old self.new }
    {
        let from = column_place(self.symbols, self.end);
        let to = column_place(self.symbols, self.end + 1);
        for place in from..to {
            self.weights[place] = W::zero();
        }
    }

    // Adds to the cell of a start what the pairs of the right part come to over the left part, up to the middle. The sum of a run
    // of pairs of one symbol is written once. One loop with a sum, and no list of runs: the sum is at hand where a run ends. The middle
    // lies before the end of the column, here and in the next two: a fact of the middle, which is a number of its own at each turn.
    fn add_pairs(&mut self, pairs: &[Pair<W::Value>], middle: usize, start: usize)
        requires parts { (start < middle) × (middle < self.old.end) }
        requires within { PairsWithin self.old.symbols pairs.now }
        ensures added { Added W.Weighing.ops self.old.symbols (cell_place self.old.symbols self.old.end start) (λ x. pairs_sum W.Weighing.ops (cell_at W.Weighing.ops self.old.weights.now (cell_place self.old.symbols middle start)) x pairs.now) self.old.weights.now self.new.weights.now }
        ensures same { SameColumn self.old self.new }
    {
        let end = self.end;
        let cell = self.cell(end, start);
        let left = self.cell(middle, start);
        let symbols = self.symbols;
        let weights = &mut *self.weights;
        let mut symbol = 0;
        let mut sum = W::zero();
        for pair in pairs {
            if pair.symbol != symbol {
                add::<W>(weights, symbols, cell, symbol, sum);
                symbol = pair.symbol;
                sum = W::zero();
            }
            sum = W::plus(
                sum,
                product::<W>(weights, left + pair.left as usize, pair.weight),
            );
        }
        add::<W>(weights, symbols, cell, symbol, sum);
    }

    // Adds to the cell of each start before the middle what the pairs of the right part come to. It stays a function of its own in what is
    // built, so that its loops come out the same, and as short, in each program: most of a long trace's time is spent in them.
    #[inline(never)]
    fn add_starts(&mut self, pairs: &[Pair<W::Value>], middle: usize)
        requires part { middle < self.old.end }
        requires within { PairsWithin self.old.symbols pairs.now }
        ensures added { AddedStarts W.Weighing.ops self.old.symbols self.old.end middle (λ i x. pairs_sum W.Weighing.ops (cell_at W.Weighing.ops self.old.weights.now (cell_place self.old.symbols middle i)) x pairs.now) self.old.weights.now self.new.weights.now }
        ensures same { SameColumn self.old self.new }
    {
        for start in 0..middle {
            self.add_pairs(pairs, middle, start);
        }
    }

    // Adds to the cell of each start before the middle what the strict pairs come to over the two parts that the middle cuts.
    fn add_middle(&mut self, pairs: &mut Pairs<W::Value>, middle: usize)
        requires { (0 < middle) × (middle < self.old.end) }
        ensures added { AddedStarts W.Weighing.ops self.old.symbols self.old.end middle (λ i. over_parts (closed_book self.old.book.now) W.Weighing.ops (cell_at W.Weighing.ops self.old.weights.now (cell_place self.old.symbols middle i)) (cell_at W.Weighing.ops self.old.weights.now (cell_place self.old.symbols self.old.end middle))) self.old.weights.now self.new.weights.now }
        ensures same { SameColumn self.old self.new }
    {
        let end = self.end;
        let right = self.cell(end, middle);
        self.gather(pairs, right);
        self.add_starts(pairs.as_slice(), middle);
    }

    // Works the column out, from its last start to the first.
    pub(crate) fn fill(&mut self, event: A::Event)
        ensures outside { SameOutside W.Weighing.ops.zero (column_place self.old.symbols self.old.end) (column_place self.old.symbols (self.old.end + 1)) self.old.weights.now self.new.weights.now }
        ensures chart { (es : List A.Event) → length es + 1 ≡ self.old.end → HoldsChart (closed_book self.old.book.now) W.Weighing.ops (closed_fits A.Alphabet.test self.old.book.now) es self.old.weights.now → HoldsChart (closed_book self.old.book.now) W.Weighing.ops (closed_fits A.Alphabet.test self.old.book.now) (es ++ (event ∷ [])) self.new.weights.now }
        ensures same { SameColumn self.old self.new }
    {
        self.clear();
        self.one_event(event);
        let mut pairs = Pairs::new_in(W::zero());
        for middle in (1..self.end).rev() {
            self.add_middle(&mut pairs, middle);
        }
    }
}
