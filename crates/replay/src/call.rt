// The calls of a book and of a chart, as a caller lists them.

// A call of an open book.
#[derive(Clone, Copy)]
pub enum BookCall<'c> {
    // the rule of a head, items and a cost is offered
    Offer {
        head: u8,
        items: &'c [u8],
        cost: u16,
    },
    // a text is loaded
    Load(&'c [u8]),
    // the last rule is struck
    Strike,
}

// A call of a chart.
#[derive(Clone, Copy)]
pub enum ChartCall<E> {
    // one event more
    Feed(E),
    // so many events are taken away
    Withdraw(usize),
}
