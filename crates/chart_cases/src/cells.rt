// The cells of a yes and no table as text.
ghost use Rattle.std.specs.Prelude.{◌≡◌, ◌<◌, ◌≤◌};
ghost use Rattle.chart.specs.Table.{cell_place};

use std::alloc::{AllocError, Global};

// A filled table of yes and no: the names of the heads, its weights, the number of symbols and the number of events held.
#[derive(Clone, Copy)]
pub struct Filled<'t> {
    heads: &'t [&'t str],
    weights: &'t [bool],
    symbols: usize,
    events: usize,
    ghost few_symbols: { symbols ≤ 128 },
    ghost few_events: { events ≤ 256 },
}

// Where the cell of a start stands in the column of an event. By the table's published layout and not by the chart's own function, so
// that what is shown does not rest on the code that filled it.
fn cell_place(symbols: usize, event: usize, start: usize) -> usize
    requires { (symbols ≤ 128) × ((0 < event) × ((event ≤ 256) × (start < event))) }
    ensures { result ≡ cell_place symbols event start }
{
    event * (event - 1) / 2 * symbols + start * symbols
}

impl<'t> Filled<'t> {
    // The table of a book of so many symbols.
    pub(crate) fn new(
        heads: &'t [&'t str],
        weights: &'t [bool],
        symbols: usize,
        events: usize,
    ) -> Filled<'t>
        requires { (symbols ≤ 128) × (events ≤ 256) }
    {
        Filled {
            heads,
            weights,
            symbols,
            events,
        }
    }

    // The names of the heads that the cell in a place has, from the first that is not empty on, or - for none.
    fn cell_text(&self, heap: Global, place: usize) -> Result<String, AllocError> {
        let names: Vec<&str> = self
            .heads
            .iter()
            .zip(self.weights.iter().skip(place))
            .filter(|(_, yes)| **yes)
            .map(|(name, _)| *name)
            .skip_while(|name| name.is_empty())
            .collect(heap)?;
        if names.is_empty() {
            return String::from_str(heap, "-");
        }
        names.join(heap, " ")
    }

    // The line of the cells over so many events, by start.
    fn length_line(&self, heap: Global, length: usize) -> Result<String, AllocError>
        requires { (0 < length) × (length ≤ self.now.events) }
    {
        let mut out = format!(in heap; "    length {length}:")?;
        for start in 0..self.events - length + 1 {
            let place = cell_place(self.symbols, start + length, start);
            let separator = if start == 0 { " " } else { " | " };
            write!(out, "{separator}{}", self.cell_text(heap, place)?)?;
        }
        Ok(out)
    }

    // The lines of the table, by length.
    pub(crate) fn lines(&self, heap: Global) -> Result<String, AllocError> {
        let mut out = String::new(heap);
        for length in 1..=self.events {
            writeln!(out, "{}", self.length_line(heap, length)?)?;
        }
        Ok(out)
    }
}
