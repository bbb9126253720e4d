// What a book makes of a case.
use crate::case::Case;
use crate::form::form_lines;
use anyhow::{Context, bail};
use book::alphabet::Bytes;
use book::books::{ClosedBook, OpenBook};
use cases::books::loaded;
use programs::patterns::PATTERNS;
use programs::rule_text::rule_text;
use std::alloc::Global;
use text::reader::rule_line;

// Offers rules in turn. A line for each says whether it was refused.
fn offers(heap: Global, book: &mut OpenBook<Bytes>, rules: &[&str]) -> anyhow::Result<String> {
    let mut out = String::new(heap);
    for rule in rules {
        let Ok(read) = rule_line(rule.as_bytes(), 0) else {
            bail!("a rule that is offered is out of form");
        };
        let line = read.context("a rule that is offered is missing")?;
        match book.offer(line.head(), line.right(), line.cost()) {
            Ok(_) => writeln!(out, "taken {rule}")?,
            Err(fault) => writeln!(out, "refused {} {rule}", fault.number())?,
        }
    }
    Ok(out)
}

// The rules of a book as text.
fn written(heap: Global, book: &ClosedBook<Bytes>) -> anyhow::Result<String> {
    let mut out = String::new(heap);
    for rule in (0..book.rule_count()).filter_map(|number| book.rule(number)) {
        writeln!(out, "{}", rule_text(heap, &rule)?)?;
    }
    Ok(out)
}

// Whether the rules of a book, written as text and loaded into a new book, give the same lines. A book that can't be loaded differs.
fn same_when_written(
    heap: Global,
    patterns: &[u8],
    book: &ClosedBook<Bytes>,
) -> anyhow::Result<bool> {
    let text = written(heap, book)?;
    let Ok((other, lines_loaded)) = loaded::<Bytes>(patterns, text.as_bytes()) else {
        return Ok(false);
    };
    let lines = form_lines(heap, &other.close())?;
    Ok(lines_loaded == book.rule_count() && lines == form_lines(heap, book)?)
}

// Whether the book of a case holds the rules loaded and no other, also when it is written and loaded again, and its lines are those expected.
pub(crate) fn agrees(heap: Global, case: &Case) -> anyhow::Result<bool> {
    let patterns = PATTERNS
        .get(..case.patterns)
        .context("a case has more than 32 patterns")?;
    let Ok((mut book, lines_loaded)) = loaded::<Bytes>(patterns, case.rules.as_bytes()) else {
        return Ok(false);
    };
    let mut out = offers(heap, &mut book, &case.offers)?;
    let closed = book.close();
    write!(out, "{}", form_lines(heap, &closed)?)?;
    Ok(
        closed.rule_count() == lines_loaded
            && out == case.expected
            && same_when_written(heap, patterns, &closed)?,
    )
}
