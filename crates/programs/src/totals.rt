// The totals of a trace by the three weighings.
ghost use Rattle.std.specs.Prelude.{◌≡◌, ◌+◌, ◌<◌, ◌≤◌, ◌↔◌, length, Some, IfOk, IsOk, MatchOption, vec_len};
ghost use Rattle.grammar.specs.Binarise.{binarised};
ghost use Rattle.book.specs.Books.{closed_book, closed_fits};
ghost use Rattle.chart.specs.Table.{column_place};
ghost use Rattle.chart.specs.Totals.{Explained, CountsReadings, IsLeastCost};
ghost use Rattle.programs.specs.Answers.{AreTotals, AsLong, FedAll, HasRoom, HaveRoom, verdict_word, totals_words};

use book::alphabet::Alphabet;
use book::books::ClosedBook;
use chart::chart::{Chart, EVENTS};
use chart::fault::FeedFault;
use chart::totals::{explained, least_cost, readings};
use std::alloc::{AllocError, Global};
use std::fmt;
use weighing::capped::Capped;
use weighing::kinds::{Count, LeastCost, YesNo};
use weighing::weighing::Weighing;

// Whether there is a reading, printed as a word.
#[derive(Clone, Copy, PartialEq, Eq, Debug)]
pub struct Verdict(pub bool);

impl fmt::Display for Verdict {
    ghost output = { λ v. Some (verdict_word v) };

    fn fmt<W: fmt::Write>(&self, f: &mut fmt::Formatter<W>) -> fmt::Result {
        if self.0 {
            write!(f, "yes")
        } else {
            write!(f, "no")
        }
    }
}

// Whether there is a reading, how many there are, and what the cheapest costs.
#[derive(Clone, Copy, PartialEq, Eq, Debug)]
pub struct Totals {
    pub verdict: Verdict,
    pub count: u32,
    pub least: u32,
}

impl fmt::Display for Totals {
    ghost output = { λ t. Some (totals_words t) };

    fn fmt<W: fmt::Write>(&self, f: &mut fmt::Formatter<W>) -> fmt::Result {
        write!(f, "{} {} {}", self.verdict, self.count, self.least)
    }
}

// How many weights a chart's table has for so many events, unless they are more than a chart holds.
pub fn room<A: Alphabet>(book: &ClosedBook<A>, events: usize) -> Option<usize>
    ensures { MatchOption result (256 < events) (λ n. (events ≤ 256) × (n ≡ column_place (binarised (closed_book book.now)).symbols (events + 1))) }
{
    if events > EVENTS {
        return None;
    }
    Some(events * (events + 1) / 2 * book.symbols())
}

// Feeds a trace to a chart, up to the first event that is refused.
pub fn feed_all<A: Alphabet, W: Weighing>(
    chart: &mut Chart<A, W>,
    trace: &[A::Event],
) -> Result<(), FeedFault>
    ensures fed { FedAll W.Weighing.ops A.Alphabet.test trace.now chart.old chart.new result }
    ensures long { length chart.new.weights.now ≡ length chart.old.weights.now }
    ensures book { chart.new.book ≡ chart.old.book }
    ensures same { chart.new.weights.ghost_name ≡ chart.old.weights.ghost_name }
{
    for event in trace {
        chart.feed(*event)?;
    }
    Ok(())
}

// A table of weights for each weighing.
#[derive(Drop)]
pub struct Tables {
    verdicts: Vec<bool>,
    counts: Vec<Capped>,
    costs: Vec<Capped>,
}

// Each weighing asks the chart's call of its own, whose promise it hands on; one function over the total of any weighing would leave
// those calls aside and owe their promises again. What the three share is the cut and `feed_all`.
impl Tables {
    // Tables of so many weights.
    pub fn new(heap: Global, weights: usize) -> Result<Tables, AllocError>
        ensures { IfOk result (λ t. (vec_len t.verdicts ≡ weights) × (vec_len t.counts ≡ weights) × (vec_len t.costs ≡ weights)) }
    {
        Ok(Tables {
            verdicts: vec![in heap; YesNo::zero(); weights]?,
            counts: vec![in heap; Count::zero(); weights]?,
            costs: vec![in heap; LeastCost::zero(); weights]?,
        })
    }

    // Whether there is a reading of a trace, or the refusal of an event.
    pub fn verdict<A: Alphabet>(
        &mut self,
        book: &ClosedBook<A>,
        trace: &[A::Event],
    ) -> Result<Verdict, FeedFault>
        ensures answer { IfOk result (λ r. Explained (closed_book book.now) (closed_fits A.Alphabet.test book.now) trace.now r.0) }
        ensures room { IsOk result ↔ HasRoom (binarised (closed_book book.now)).symbols (vec_len self.old.verdicts) (length trace.now) }
        ensures tables { AsLong self.old self.new }
    {
        let mut chart: Chart<A, YesNo> = Chart::cut(book, &mut self.verdicts);
        feed_all(&mut chart, trace)?;
        Ok(Verdict(explained(&chart)))
    }

    // How many readings of a trace there are, or the refusal of an event.
    pub fn count<A: Alphabet>(
        &mut self,
        book: &ClosedBook<A>,
        trace: &[A::Event],
    ) -> Result<u32, FeedFault>
        ensures answer { IfOk result (λ r. CountsReadings (closed_book book.now) (closed_fits A.Alphabet.test book.now) 4294967295 trace.now r) }
        ensures room { IsOk result ↔ HasRoom (binarised (closed_book book.now)).symbols (vec_len self.old.counts) (length trace.now) }
        ensures tables { AsLong self.old self.new }
    {
        let mut chart: Chart<A, Count> = Chart::cut(book, &mut self.counts);
        feed_all(&mut chart, trace)?;
        Ok(readings(&chart))
    }

    // What the cheapest reading of a trace costs, or the refusal of an event.
    pub fn least<A: Alphabet>(
        &mut self,
        book: &ClosedBook<A>,
        trace: &[A::Event],
    ) -> Result<u32, FeedFault>
        ensures answer { IfOk result (λ r. IsLeastCost (closed_book book.now) (closed_fits A.Alphabet.test book.now) 4294967295 trace.now r) }
        ensures room { IsOk result ↔ HasRoom (binarised (closed_book book.now)).symbols (vec_len self.old.costs) (length trace.now) }
        ensures tables { AsLong self.old self.new }
    {
        let mut chart: Chart<A, LeastCost> = Chart::cut(book, &mut self.costs);
        feed_all(&mut chart, trace)?;
        Ok(least_cost(&chart))
    }

    // The totals of a trace, or the refusal of an event.
    pub fn totals<A: Alphabet>(
        &mut self,
        book: &ClosedBook<A>,
        trace: &[A::Event],
    ) -> Result<Totals, FeedFault>
        ensures answer { IfOk result (λ r. AreTotals book.now A.Alphabet.test trace.now r) }
        ensures room { IsOk result ↔ HaveRoom (binarised (closed_book book.now)).symbols self.old (length trace.now) }
        ensures tables { AsLong self.old self.new }
    {
        Ok(Totals {
            verdict: self.verdict(book, trace)?,
            count: self.count(book, trace)?,
            least: self.least(book, trace)?,
        })
    }
}
