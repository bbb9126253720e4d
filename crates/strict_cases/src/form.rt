// The strict form of a closed book as text.
use book::alphabet::Bytes;
use book::books::ClosedBook;
use conversion::form::StrictForm;
use conversion::right::Right;
use conversion::strict::StrictRule;
use std::alloc::{AllocError, Global};
use std::fmt;

// A strict rule as a line; the first two right sides stand in no strict rule.
#[derive(Clone, Copy)]
struct Line(StrictRule);

impl fmt::Display for Line {
    fn fmt<W: fmt::Write>(&self, f: &mut fmt::Formatter<W>) -> fmt::Result {
        let StrictRule {
            symbol,
            end,
            number,
            right,
        } = self.0;
        write!(f, "strict {symbol} {end} {number} ")?;
        match right {
            Right::Empty => writeln!(f, "empty"),
            Right::Unit(x) => writeln!(f, "unit {x}"),
            Right::Binary(x, y) => writeln!(f, "pair {x} {y}"),
            Right::Terminal(t) => writeln!(f, "pattern {t}"),
        }
    }
}

// The symbols that a round brought in, a space before each.
fn round_symbols(heap: Global, form: &StrictForm, round: u8) -> Result<String, AllocError> {
    let mut out = String::new(heap);
    for symbol in 0..128 {
        if form
            .brought(symbol)
            .is_some_and(|brought| brought.round == round)
        {
            write!(out, " {symbol}")?;
        }
    }
    Ok(out)
}

// The lines of the rounds that brought symbols in.
fn push_rounds(heap: Global, out: &mut String, form: &StrictForm) -> Result<(), AllocError> {
    for round in 0..128 {
        let symbols = round_symbols(heap, form, round)?;
        if !symbols.is_empty() {
            writeln!(out, "round {round}{symbols}")?;
        }
    }
    Ok(())
}

// The lines of the strict rules, asked for one by one, so that both read-only calls for them are run.
fn push_rules(out: &mut String, book: &ClosedBook<Bytes>) -> Result<(), AllocError> {
    for rule in (0..book.strict_count()).filter_map(|place| book.strict_rule(place)) {
        write!(out, "{}", Line(rule))?;
    }
    Ok(())
}

// The lines of the strict form: the number of symbols, the rounds, the strict rules.
pub(crate) fn form_lines(heap: Global, book: &ClosedBook<Bytes>) -> Result<String, AllocError> {
    let mut out = format!(in heap; "symbols {}\n", book.symbols())?;
    push_rounds(heap, &mut out, book.form())?;
    push_rules(&mut out, book)?;
    Ok(out)
}
