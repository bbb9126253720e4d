// A book is loaded, and a trace fed to a chart of it in each weighing.
use anyhow::{Context, bail};
use book::alphabet::Bytes;
use book::books::ClosedBook;
use cases::books::loaded;
use chart::chart::Chart;
use chart::totals::{explained, least_cost, readings};
use programs::patterns::{LETTERS, PATTERNS};
use programs::totals::{Verdict, feed_all, room};
use std::fmt::Display;
use std::time::{Duration, Instant};
use std::{fmt, fs};
use weighing::kinds::{Count, LeastCost, YesNo};
use weighing::weighing::Weighing;

// What is measured: a file of rule text, the number of patterns, and the events, as letters.
#[derive(Clone, Copy)]
pub struct Case<'t> {
    pub book: &'t str,
    pub patterns: usize,
    pub trace: &'t str,
}

// A total, and the time spent in the feeds before it.
#[derive(Clone, Copy)]
pub struct Timed<T> {
    pub spent: Duration,
    pub total: T,
}

impl<T: Display> Display for Timed<T> {
    fn fmt<W: fmt::Write>(&self, f: &mut fmt::Formatter<W>) -> fmt::Result {
        write!(f, "{:.4} s {}", self.spent.as_secs_f64(), self.total)
    }
}

// What was measured.
#[derive(Clone, Copy)]
pub struct Figures {
    pub symbols: usize,
    pub strict_rules: usize,
    pub events: usize,
    pub yes_no: Timed<Verdict>,
    pub count: Timed<u32>,
    pub least: Timed<u32>,
}

impl Display for Figures {
    fn fmt<W: fmt::Write>(&self, f: &mut fmt::Formatter<W>) -> fmt::Result {
        writeln!(
            f,
            "symbols {} strict {} events {}",
            self.symbols, self.strict_rules, self.events
        )?;
        writeln!(f, "yes/no {}", self.yes_no)?;
        writeln!(f, "count {}", self.count)?;
        writeln!(f, "least cost {}", self.least)
    }
}

// Feeds a trace to a chart. The time spent in the feeds alone.
fn time<W: Weighing>(
    rt: &HostRuntime,
    chart: &mut Chart<Bytes, W>,
    trace: &[u8],
) -> anyhow::Result<Duration> {
    let start = Instant::now(rt)?;
    feed_all(chart, trace)?;
    Ok(start.elapsed(rt)?)
}

// Each total has a table of its own, which is given back before the next is made.

// Whether there is a reading of a trace.
fn yes_no(
    rt: &HostRuntime,
    book: &ClosedBook<Bytes>,
    trace: &[u8],
) -> anyhow::Result<Timed<Verdict>> {
    let places = room(book, trace.len()).context("more than 256 events")?;
    let mut weights = vec![in rt.alloc(); YesNo::zero(); places]?;
    let mut chart: Chart<Bytes, YesNo> = Chart::cut(book, &mut weights);
    let spent = time(rt, &mut chart, trace)?;
    let total = Verdict(explained(&chart));
    Ok(Timed { spent, total })
}

// How many readings of a trace there are.
fn count(rt: &HostRuntime, book: &ClosedBook<Bytes>, trace: &[u8]) -> anyhow::Result<Timed<u32>> {
    let places = room(book, trace.len()).context("more than 256 events")?;
    let mut weights = vec![in rt.alloc(); Count::zero(); places]?;
    let mut chart: Chart<Bytes, Count> = Chart::cut(book, &mut weights);
    let spent = time(rt, &mut chart, trace)?;
    let total = readings(&chart);
    Ok(Timed { spent, total })
}

// What the cheapest reading of a trace costs.
fn least(rt: &HostRuntime, book: &ClosedBook<Bytes>, trace: &[u8]) -> anyhow::Result<Timed<u32>> {
    let places = room(book, trace.len()).context("more than 256 events")?;
    let mut weights = vec![in rt.alloc(); LeastCost::zero(); places]?;
    let mut chart: Chart<Bytes, LeastCost> = Chart::cut(book, &mut weights);
    let spent = time(rt, &mut chart, trace)?;
    let total = least_cost(&chart);
    Ok(Timed { spent, total })
}

// Loads the book of a case and feeds its trace in each weighing.
pub(crate) fn measure(rt: &HostRuntime, case: &Case) -> anyhow::Result<Figures> {
    let text = fs::read_to_string(rt, case.book)?;
    let patterns = PATTERNS[..LETTERS]
        .get(..case.patterns)
        .context("more than 26 patterns")?;
    let Ok((open, _)) = loaded::<Bytes>(patterns, text.as_bytes()) else {
        bail!("the rules are refused");
    };
    let book = open.close();
    let trace = case.trace.as_bytes();
    Ok(Figures {
        symbols: book.symbols(),
        strict_rules: book.strict_count(),
        events: trace.len(),
        yes_no: yes_no(rt, &book, trace)?,
        count: count(rt, &book, trace)?,
        least: least(rt, &book, trace)?,
    })
}
