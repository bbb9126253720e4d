// What the strict rules give over one event, and over a right part.
ghost use Rattle.std.specs.Prelude.{◌≡◌, ℕ, ◌+◌, ◌-◌, ◌<◌, ◌≤◌, length, if◌then◌else◌};
ghost use Rattle.arrayvec.specs.ArrayVec.{array_vec_len};
ghost use Rattle.grammar.specs.Cells.{terminal_fits};
ghost use Rattle.conversion.specs.Views.{right_side_of};
ghost use Rattle.book.specs.Books.{closed_book, closed_fits};
ghost use Rattle.chart.specs.Table.{cell_place, cell_at, SameOutside};
ghost use Rattle.chart.specs.Inner.{SameColumn, Added, over_event, over_parts, pairs_sum, PairsWithin, PairAdded};

use crate::cells::{add, peek};
use crate::column::Column;
use crate::pairs::{Pair, Pairs};
use crate::weighed::WeighedRule;
use book::alphabet::Alphabet;
use conversion::right::Right;
use weighing::weighing::Weighing;

impl<'t, 'p, A: Alphabet, W: Weighing> Column<'t, 'p, A, W> {
    // The weight of a strict rule where it is a pattern rule that fits the event, else zero.
    fn event_weight(&self, weighed: &WeighedRule<W::Value>, event: A::Event) -> W::Value
        ensures { result ≡ (if terminal_fits (closed_fits A.Alphabet.test self.now.book.now) event (right_side_of weighed.now.rule.right) then weighed.now.weight else W.Weighing.ops.zero) }
    {
        match weighed.rule.right {
            Right::Terminal(t) if self.book.fits(t, event) => weighed.weight,
            _ => W::zero(),
        }
    }

    // Adds to the last cell, over the event alone, the strict pattern rules whose pattern fits it.
    pub(crate) fn one_event(&mut self, event: A::Event)
        ensures outside { SameOutside W.Weighing.ops.zero (cell_place self.old.symbols self.old.end (self.old.end - 1)) (cell_place self.old.symbols self.old.end (self.old.end - 1) + self.old.symbols) self.old.weights.now self.new.weights.now }
        ensures added { Added W.Weighing.ops self.old.symbols (cell_place self.old.symbols self.old.end (self.old.end - 1)) (over_event (closed_book self.old.book.now) W.Weighing.ops (closed_fits A.Alphabet.test self.old.book.now) event) self.old.weights.now self.new.weights.now }
        ensures same { SameColumn self.old self.new }
    {
        let end = self.end;
        let cell = self.cell(end, end - 1);
        let symbols = self.symbols;
        let rules = self.rules;
        for weighed in rules {
            let weight = self.event_weight(weighed, event);
            add::<W>(self.weights, symbols, cell, weighed.rule.symbol, weight);
        }
    }

    // The pair that a strict rule gives over the right cell, unless that leaves nothing of it.
    fn add_pair(&self, pairs: &mut Pairs<W::Value>, weighed: &WeighedRule<W::Value>, right: usize)
        requires few { array_vec_len pairs.old < 1024 }
        requires small { right ≤ 10000000 }
        ensures { PairAdded W.Weighing.ops weighed.now.rule weighed.now.weight (cell_at W.Weighing.ops self.now.weights.now right) pairs.old.items pairs.new.items }
    {
        if let Right::Binary(y, z) = weighed.rule.right {
            let part = peek::<W>(self.weights, right + z as usize);
            if !W::is_zero(part) {
                pairs.push(Pair {
                    symbol: weighed.rule.symbol,
                    left: y,
                    weight: W::times(weighed.weight, part),
                });
            }
        }
    }

    // The pairs over the right cell.
    pub(crate) fn gather(&self, pairs: &mut Pairs<W::Value>, right: usize)
        requires { right ≤ 10000000 }
        ensures sums { (left : ℕ → W.Value) (x : ℕ) → x < self.now.symbols → pairs_sum W.Weighing.ops left x pairs.new.items ≡ over_parts (closed_book self.now.book.now) W.Weighing.ops left (cell_at W.Weighing.ops self.now.weights.now right) x }
        ensures within { PairsWithin self.now.symbols pairs.new.items }
    {
        pairs.clear();
        for weighed in self.rules {
            self.add_pair(pairs, weighed, right);
        }
    }
}
