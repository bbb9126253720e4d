// What the lines of a script say.
ghost use Rattle.std.specs.Prelude.{◌≡◌};
ghost use Rattle.replay.specs.Calls.{call_of};
ghost use Rattle.programs.specs.Said.{book_line};
ghost use Rattle.programs.specs.Printed.{Cheap};

use replay::call::{BookCall, ChartCall};

// A call of the book, as a line says it.
#[derive(Drop)]
pub(crate) enum BookLine<'t> {
    Offer { head: u8, items: Vec<u8>, cost: u16 },
    Load(&'t [u8]),
    Strike,
}

impl<'t> BookLine<'t> {
    // The call itself.
    pub(crate) fn call(&self) -> BookCall<'_>
        ensures says { call_of result ≡ book_line self.now }
        ensures cheap { Cheap (call_of result) }
    {
        match self {
            BookLine::Offer { head, items, cost } => BookCall::Offer {
                head: *head,
                items,
                cost: *cost,
            },
            BookLine::Load(text) => BookCall::Load(text),
            BookLine::Strike => BookCall::Strike,
        }
    }
}

// What is asked of a chart.
#[derive(Clone, Copy)]
pub(crate) enum Question {
    Total,
    Reading,
}

// A call of the chart, or what is asked of it.
#[derive(Clone, Copy)]
pub(crate) enum ChartLine<E> {
    Call(ChartCall<E>),
    Ask(Question),
}

// How many weights and nodes the tables have.
#[derive(Clone, Copy)]
pub(crate) struct Sizes {
    pub(crate) weights: usize,
    pub(crate) nodes: usize,
}

// What the lines say, over an alphabet of these patterns and events.
#[derive(Drop)]
pub(crate) struct Script<'t, P, E> {
    pub(crate) patterns: Vec<P>,
    pub(crate) book: Vec<BookLine<'t>>,
    pub(crate) sizes: Sizes,
    pub(crate) chart: Vec<ChartLine<E>>,
}
