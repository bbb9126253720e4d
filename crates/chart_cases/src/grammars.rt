// What is printed of a case over bytes.
use crate::case::Case;
use crate::cells::Filled;
use crate::closed::closed;
use crate::totals::totals_line;
use anyhow::Context;
use book::alphabet::Bytes;
use book::books::ClosedBook;
use chart::chart::Chart;
use programs::totals::{feed_all, room};
use std::alloc::Global;
use weighing::kinds::YesNo;

// The lines of the yes and no table of a trace.
fn table(
    heap: Global,
    book: &ClosedBook<Bytes>,
    heads: &[&str],
    trace: &str,
) -> anyhow::Result<String> {
    let places = room(book, trace.len()).context("a trace is too long")?;
    let mut weights = vec![in heap; false; places]?;
    let mut chart: Chart<Bytes, YesNo> = Chart::cut(book, &mut weights);
    feed_all(&mut chart, trace.as_bytes())?;
    Ok(Filled::new(heads, &weights, book.symbols(), trace.len()).lines(heap)?)
}

// The lines of a case.
pub(crate) fn case_lines(heap: Global, case: &Case) -> anyhow::Result<String> {
    let book = closed::<Bytes>(case.patterns.as_bytes(), &case.rules)?;
    let mut out = format!(in heap; "{}\n", case.name)?;
    for trace in &case.tables {
        let lines = table(heap, &book, &case.heads, trace)?;
        write!(out, "  table of {trace}\n{lines}")?;
    }
    for trace in &case.totals {
        let line = totals_line::<Bytes>(heap, &book, trace, trace.as_bytes())?;
        write!(out, "{line}")?;
    }
    Ok(out)
}
