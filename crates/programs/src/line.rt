// The line program: rule text and traces in, a line of totals for each trace out.
ghost use Rattle.std.specs.Prelude.{◌≡◌, ◌++◌, [], IfOk, OnOk, string_bytes, nat_eq};
ghost use Rattle.grammar.specs.Lists.{each, count_up};
ghost use Rattle.book.specs.Books.{open_held, closed_book, closed_fits};
ghost use Rattle.book.specs.Loads.{load};
ghost use Rattle.programs.specs.Output.{line_texts, trace_line, loaded_output, line_output, HaveWeights, LineMeans};

use crate::divide::{Parts, divide};
use crate::patterns::{LETTERS, PATTERNS};
use crate::totals::Tables;
use book::alphabet::Bytes;
use book::books::{ClosedBook, OpenBook};
use book::table::PatternTable;
use std::alloc::{AllocError, Global};
use text::lines::Lines;

// The longest input that is read.
pub const LIMIT: usize = 32_768;

// The number of weights of each table.
const WEIGHTS: usize = 15_360;

// The line for one trace.
fn push_line(
    out: &mut String,
    book: &ClosedBook<Bytes>,
    tables: &mut Tables,
    trace: &[u8],
) -> Result<(), AllocError>
    requires { HaveWeights tables.old }
    ensures line { OnOk result (string_bytes out.new ≡ string_bytes out.old ++ trace_line (closed_book book.now) (closed_fits nat_eq book.now) trace.now) }
    ensures tables { HaveWeights tables.new }
{
    let length = trace.len();
    match tables.totals(book, trace) {
        Ok(totals) => writeln!(out, "{length} {totals}"),
        Err(fault) => writeln!(out, "{length} refused {}", fault.number()),
    }
}

// The lines for all traces.
fn trace_lines(heap: Global, book: &ClosedBook<Bytes>, traces: &[u8]) -> Result<String, AllocError>
    ensures { IfOk result (λ s. string_bytes s ≡ each (trace_line (closed_book book.now) (closed_fits nat_eq book.now)) (line_texts traces.now)) }
{
    let mut out = String::new(heap);
    let mut tables = Tables::new(heap, WEIGHTS)?;
    for line in Lines::of(traces) {
        push_line(&mut out, book, &mut tables, line.bytes())?;
    }
    Ok(out)
}

// The output for a book that was loaded. It loads by itself, since a refusal is printed in words of its own.
fn loaded(heap: Global, mut book: OpenBook<Bytes>, parts: Parts) -> Result<String, AllocError>
    requires none { open_held book ≡ [] }
    requires letters { book.table.patterns.now ≡ count_up 97 26 }
    ensures { IfOk result (λ s. string_bytes s ≡ loaded_output (load 26 [] parts.entry.rules.now) parts.entry.traces.now) }
{
    if let Err(fault) = book.load(parts.rules) {
        return format!(in heap; "refused {} {}\n", fault.number(), fault.place());
    }
    let closed = book.close();
    trace_lines(heap, &closed, parts.traces)
}

// The output for an input of any bytes. The patterns are the small letters, of which no table refuses any.
pub fn line(heap: Global, input: &[u8]) -> Result<String, AllocError>
    ensures output { IfOk result (λ s. string_bytes s ≡ line_output input.now) }
    ensures means { LineMeans input.now }
{
    if input.len() > LIMIT {
        return format!(in heap; "refused 25\n");
    }
    match PatternTable::check(&PATTERNS[..LETTERS]) {
        Ok(table) => loaded(heap, OpenBook::new(table), divide(input)),
        Err(_) => unreachable(),
    }
}
