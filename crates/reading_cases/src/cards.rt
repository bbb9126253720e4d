// The readings over card events, and the parts of their traces.
use crate::filled::Filled;
use anyhow::Context;
use book::alphabet::Cards;
use book::books::ClosedBook;
use book::kinds::{CardEvent, CardPattern};
use cases::books::loaded;
use cases::cards::{card_event, card_pattern};
use chart::node::Node;
use chart::part::part;
use std::alloc::{AllocError, Global};

// More places than the readings here have nodes.
const PLACES: usize = 64;

// The patterns, the rules, the traces whose readings are printed, and the parts that are asked for.
#[derive(Drop)]
struct CardCase<'t> {
    patterns: Vec<CardPattern>,
    rules: String,
    readings: Vec<&'t str>,
    parts: Vec<&'t str>,
}

// The events of a trace.
fn card_trace(heap: Global, text: &str) -> anyhow::Result<Vec<CardEvent>> {
    if text.is_empty() {
        return Ok(Vec::new(heap));
    }
    text.split(' ').map(card_event).try_collect(heap)
}

// A node of these events.
fn span(text: &str) -> anyhow::Result<Node> {
    let (first, count) = text.split_once(' ').context("a part has no count")?;
    Ok(Node {
        rule: 0,
        first: first.parse::<u16>()?,
        count: count.parse::<u16>()?,
    })
}

impl<'t> CardCase<'t> {
    // The case of a text.
    fn of(heap: Global, text: &'t str) -> anyhow::Result<CardCase<'t>> {
        let mut case = CardCase {
            patterns: Vec::new(heap),
            rules: String::new(heap),
            readings: Vec::new(heap),
            parts: Vec::new(heap),
        };
        for line in text.lines() {
            case.read(line)?;
        }
        Ok(case)
    }

    // Takes in a line.
    fn read(&mut self, line: &'t str) -> anyhow::Result<()> {
        if let Some(pattern) = line.strip_prefix("pattern ") {
            self.patterns.push(card_pattern(pattern)?)?;
        } else if let Some(trace) = line.strip_prefix("reading ") {
            self.readings.push(trace)?;
        } else if let Some(asked) = line.strip_prefix("part ") {
            self.parts.push(asked)?;
        } else {
            writeln!(self.rules, "{line}")?;
        }
        Ok(())
    }
}

// Adds the events of a node, a space before each, or the refusal.
fn push_part(out: &mut String, trace: &[CardEvent], node: Node) -> Result<(), AllocError> {
    match part(trace, node) {
        Ok(events) => {
            for event in events {
                write!(out, " {}:{}", event.kind, event.argument)?;
            }
            writeln!(out, "")
        }
        Err(fault) => writeln!(out, " refused {}", fault.number()),
    }
}

// Adds the lines of a reading: the answer, and each node with its events.
fn push_reading(
    heap: Global,
    out: &mut String,
    book: &ClosedBook<Cards>,
    text: &str,
) -> anyhow::Result<()> {
    let trace = card_trace(heap, text)?;
    let filled = Filled::of(heap, book, &trace, PLACES)?;
    writeln!(out, "  reading {text}: {}", filled.answer)?;
    for node in filled.written() {
        write!(out, "    {} {} {}:", node.rule, node.first, node.count)?;
        push_part(out, &trace, *node)?;
    }
    Ok(())
}

// Adds the line of a part that is asked for.
fn push_asked(heap: Global, out: &mut String, asked: &str) -> anyhow::Result<()> {
    let (events, trace) = asked.split_once(" of ").context("a part is of no trace")?;
    write!(out, "  part {asked}:")?;
    push_part(out, &card_trace(heap, trace)?, span(events)?)?;
    Ok(())
}

// The lines of the case of a text.
pub(crate) fn card_lines(heap: Global, text: &str) -> anyhow::Result<String> {
    let case = CardCase::of(heap, text)?;
    let book = loaded::<Cards>(&case.patterns, case.rules.as_bytes())?
        .0
        .close();
    let mut out = String::from_str(heap, "card events\n")?;
    for trace in &case.readings {
        push_reading(heap, &mut out, &book, trace)?;
    }
    for asked in &case.parts {
        push_asked(heap, &mut out, asked)?;
    }
    Ok(out)
}
