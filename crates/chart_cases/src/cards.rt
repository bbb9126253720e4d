// The case over card events.
use crate::case::push_line;
use crate::closed::closed;
use crate::totals::totals_line;
use book::alphabet::Cards;
use book::kinds::{CardEvent, CardPattern};
use cases::cards::{card_event, card_pattern};
use std::alloc::Global;

// The patterns, the rules, and the traces to print totals of.
#[derive(Drop)]
struct CardCase<'t> {
    patterns: Vec<CardPattern>,
    rules: String,
    traces: Vec<&'t str>,
}

impl<'t> CardCase<'t> {
    // The case of a text.
    fn of(heap: Global, text: &'t str) -> anyhow::Result<CardCase<'t>> {
        let mut case = CardCase {
            patterns: Vec::new(heap),
            rules: String::new(heap),
            traces: Vec::new(heap),
        };
        for line in text.lines() {
            case.read(line)?;
        }
        Ok(case)
    }

    // Takes in a line.
    fn read(&mut self, line: &'t str) -> anyhow::Result<()> {
        if let Some(pattern) = line.strip_prefix("pattern ") {
            self.patterns.push(card_pattern(pattern)?)?;
        } else if let Some(trace) = line.strip_prefix("totals ") {
            self.traces.push(trace)?;
        } else {
            push_line(&mut self.rules, line)?;
        }
        Ok(())
    }
}

// The lines of the case of a text.
pub(crate) fn card_lines(heap: Global, text: &str) -> anyhow::Result<String> {
    let case = CardCase::of(heap, text)?;
    let book = closed::<Cards>(&case.patterns, &case.rules)?;
    let mut out = String::from_str(heap, "card events\n")?;
    for trace in &case.traces {
        let events: Vec<CardEvent> = trace.split(' ').map(card_event).try_collect(heap)?;
        write!(
            out,
            "{}",
            totals_line::<Cards>(heap, &book, trace, &events)?
        )?;
    }
    Ok(out)
}
