// A chart: a closed book, the caller's table of weights, and the number of events held.
ghost use Rattle.std.specs.Prelude.{◌≡◌, ℕ, ◌+◌, ◌<◌, ◌≤◌, Bool, List, [], ◌∷◌, ◌++◌, length, slice_index_or};
ghost use Rattle.grammar.specs.Binarise.{binarised};
ghost use Rattle.grammar.specs.Weights.{total_of};
ghost use Rattle.book.specs.Books.{closed_book, closed_fits};
ghost use Rattle.chart.specs.Table.{column_place, SameOutside};
ghost use Rattle.chart.specs.Weights.{rules_book, Weighs};
ghost use Rattle.chart.specs.Charts.{HoldsChart};
ghost use Rattle.chart.specs.Totals.{TotalIs};

use crate::blanks::Blanks;
use crate::cells::{column_place, peek};
use crate::column::Column;
use crate::fault::{FeedFault, WithdrawFault};
use crate::nullable::nullable_weights;
use crate::weighed::WeighedRules;
use book::alphabet::Alphabet;
use book::books::ClosedBook;
use book::converted::Converted;
use weighing::bank::Bank;
use weighing::weighing::Weighing;

// So many events a chart holds at most.
pub const EVENTS: usize = 256;

// The events themselves are not stored: the table holds the weight of each symbol over each part of them.
#[derive(Drop)]
pub struct Chart<'b, 'p, 't, A: Alphabet, W: Weighing> {
    pub(crate) book: &'b ClosedBook<'p, A>,
    pub(crate) weights: &'t mut [W::Value],
    pub(crate) events: usize,
    ghost few: { events ≤ 256 },
}

// The strict rules with their weights, worked out anew.
fn weigh<W: Weighing>(converted: &Converted) -> WeighedRules<W::Value>
    ensures { Weighs W.Weighing.ops (rules_book converted.now.rules) result.items }
{
    let bank = nullable_weights::<W>(converted);
    let blanks = Blanks::<W> {
        converted,
        bank: &bank,
    };
    blanks.strict_weights()
}

// The weight of head 0's chosen derivation of nothing, or zero.
fn empty_total<A: Alphabet, W: Weighing>(book: &ClosedBook<A>) -> W::Value
    ensures { (fits : A.Event → ℕ → Bool) → result ≡ total_of (closed_book book.now) W.Weighing.ops fits [] }
{
    nullable_weights::<W>(book.converted()).get(0)
}

// Works out the weights of the strict rules and fills the column of an event.
fn fill<A: Alphabet, W: Weighing>(
    weights: &mut [W::Value],
    book: &ClosedBook<A>,
    end: usize,
    event: A::Event,
)
    requires events { (0 < end) × (end ≤ 256) }
    requires room { column_place (binarised (closed_book book.now)).symbols (end + 1) ≤ length weights.old }
    ensures outside { SameOutside W.Weighing.ops.zero (column_place (binarised (closed_book book.now)).symbols end) (column_place (binarised (closed_book book.now)).symbols (end + 1)) weights.old weights.new }
    ensures chart { (es : List A.Event) → length es + 1 ≡ end → HoldsChart (closed_book book.now) W.Weighing.ops (closed_fits A.Alphabet.test book.now) es weights.old → HoldsChart (closed_book book.now) W.Weighing.ops (closed_fits A.Alphabet.test book.now) (es ++ (event ∷ [])) weights.new }
{
    let rules = weigh::<W>(book.converted());
    let mut column = Column::<A, W> {
        book,
        rules: rules.as_slice(),
        weights,
        symbols: book.symbols(),
        end,
    };
    column.fill(event);
}

impl<'b, 'p, 't, A: Alphabet, W: Weighing> Chart<'b, 'p, 't, A, W> {
    ghost use Rattle.grammar.specs.Promises.{ByPlace};
    ghost use Rattle.chart.specs.Events.{Holds, chart_book, chart_fits, FitsByRelation};
    ghost use Rattle.chart.specs.Feeds.{FedEvent, Withdrawn};
    ghost use Rattle.chart.specs.Runs.{a_feed, a_withdraw, HoldsAfter, RunsOn};

    // A chart of no events over the table, which it leaves as it is.
    pub fn cut(book: &'b ClosedBook<'p, A>, weights: &'t mut [W::Value]) -> Chart<'b, 'p, 't, A, W>
        ensures none { result.events ≡ 0 }
        ensures holds { Holds W.Weighing.ops A.Alphabet.test result [] }
        ensures runs { HoldsAfter W.Weighing.ops A.Alphabet.test result [] }
        ensures book { result.book.now ≡ book.now }
        ensures table { result.weights.now ≡ weights.old }
        ensures same { result.weights.ghost_name ≡ weights.entry.ghost_name }
    {
        Chart {
            book,
            weights,
            events: 0,
        }
    }

    // How many events are held.
    pub fn held(&self) -> usize
        ensures { result ≡ self.now.events }
    {
        self.events
    }

    // One event more: how many are held then, or the refusal.
    pub fn feed(&mut self, event: A::Event) -> Result<usize, FeedFault>
        ensures fed { FedEvent W.Weighing.ops A.Alphabet.test event self.old self.new result }
        ensures equations { (es : List A.Event) (x i : ℕ) → ByPlace (chart_book self.new) W.Weighing.ops (chart_fits A.Alphabet.test self.new) es x i }
        ensures runs { RunsOn W.Weighing.ops A.Alphabet.test (a_feed event) self.old self.new }
        ensures long { length self.new.weights.now ≡ length self.old.weights.now }
        ensures book { self.new.book ≡ self.old.book }
        ensures same { self.new.weights.ghost_name ≡ self.old.weights.ghost_name }
    {
        let book = self.book;
        let n = self.events;
        if n >= EVENTS || self.weights.len() < column_place(book.symbols(), n + 2) {
            return Err(FeedFault::NoRoom);
        }
        fill::<A, W>(self.weights, book, n + 1, event);
        self.events = n + 1;
        Ok(n + 1)
    }

    // Takes the last k events away: how many are held then, or the refusal. The table is not written.
    pub fn withdraw(&mut self, k: usize) -> Result<usize, WithdrawFault>
        ensures withdrawn { Withdrawn W.Weighing.ops A.Alphabet.test k self.old self.new result }
        ensures runs { RunsOn W.Weighing.ops A.Alphabet.test (a_withdraw k) self.old self.new }
        ensures table { self.new.weights.now ≡ self.old.weights.now }
        ensures book { self.new.book ≡ self.old.book }
        ensures same { self.new.weights.ghost_name ≡ self.old.weights.ghost_name }
    {
        if k > self.events {
            return Err(WithdrawFault::TooMany);
        }
        self.events -= k;
        Ok(self.events)
    }

    // Head 0's weight over all events held.
    pub fn total(&self) -> W::Value
        ensures stands { 0 < self.now.events → result ≡ slice_index_or self.now.weights.now (column_place self.now.book.now.converted.form.binarised.symbols self.now.events) W.Weighing.ops.zero }
        ensures means { (es : List A.Event) → Holds W.Weighing.ops A.Alphabet.test self.now es → TotalIs (chart_book self.now) W.Weighing.ops (chart_fits A.Alphabet.test self.now) es result }
        ensures fits { FitsByRelation A.Alphabet.fits A.Alphabet.test self.now }
    {
        if self.events == 0 {
            return empty_total::<A, W>(self.book);
        }
        let place = column_place(self.book.symbols(), self.events);
        peek::<W>(self.weights, place)
    }
}
