// The totals of a trace by the three weighings.
use anyhow::Context;
use book::alphabet::Alphabet;
use book::books::ClosedBook;
use chart::chart::Chart;
use chart::totals::{explained, least_cost, readings};
use programs::totals::{Verdict, feed_all, room};
use std::alloc::Global;
use weighing::kinds::{Count, LeastCost, YesNo};
use weighing::weighing::Weighing;

// Each total has a table of its own, which is given back before the next is made.

// Whether there is a reading of a trace.
fn verdict<A: Alphabet>(
    heap: Global,
    book: &ClosedBook<A>,
    trace: &[A::Event],
) -> anyhow::Result<Verdict> {
    let places = room(book, trace.len()).context("a trace is too long")?;
    let mut weights = vec![in heap; YesNo::zero(); places]?;
    let mut chart: Chart<A, YesNo> = Chart::cut(book, &mut weights);
    feed_all(&mut chart, trace)?;
    Ok(Verdict(explained(&chart)))
}

// How many readings of a trace there are.
fn count<A: Alphabet>(
    heap: Global,
    book: &ClosedBook<A>,
    trace: &[A::Event],
) -> anyhow::Result<u32> {
    let places = room(book, trace.len()).context("a trace is too long")?;
    let mut weights = vec![in heap; Count::zero(); places]?;
    let mut chart: Chart<A, Count> = Chart::cut(book, &mut weights);
    feed_all(&mut chart, trace)?;
    Ok(readings(&chart))
}

// What the cheapest reading of a trace costs.
fn least<A: Alphabet>(
    heap: Global,
    book: &ClosedBook<A>,
    trace: &[A::Event],
) -> anyhow::Result<u32> {
    let places = room(book, trace.len()).context("a trace is too long")?;
    let mut weights = vec![in heap; LeastCost::zero(); places]?;
    let mut chart: Chart<A, LeastCost> = Chart::cut(book, &mut weights);
    feed_all(&mut chart, trace)?;
    Ok(least_cost(&chart))
}

// The line of a trace, which is shown as the text.
pub(crate) fn totals_line<A: Alphabet>(
    heap: Global,
    book: &ClosedBook<A>,
    text: &str,
    trace: &[A::Event],
) -> anyhow::Result<String> {
    let verdict = verdict(heap, book, trace)?;
    let count = count(heap, book, trace)?;
    let least = least(heap, book, trace)?;
    Ok(format!(in heap; "  {text}: {verdict}, count {count}, least cost {least}\n")?)
}
