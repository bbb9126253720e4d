// Feeds a trace to a chart in each of the three weighings.
// bench BOOK PATTERNS TRACE: a file of rule text, how many patterns there are, which are the letters from a on, and the trace, as
// letters. Prints the numbers of symbols, of strict rules and of events, and for each weighing the seconds spent in the feeds, by
// the clock, and the total.
// With no argument: twelve events over each stored book, and the totals alone, which are the same in every run.
#![tactic(auto)]

mod measure;

use anyhow::Context;
use measure::{Case, measure};
use std::env;

// The stored books.
static STORED: [Case<'static>; 3] = [
    Case {
        book: "dense.txt",
        patterns: 1,
        trace: "aaaaaaaaaaaa",
    },
    Case {
        book: "nested.txt",
        patterns: 2,
        trace: "aaaaaabbbbbb",
    },
    Case {
        book: "sparse.txt",
        patterns: 7,
        trace: "acefdcdgacdg",
    },
];

// Prints the totals of the stored books.
fn print_stored(rt: &HostRuntime) -> anyhow::Result<()> {
    for case in &STORED {
        let figures = measure(rt, case)?;
        println!(rt;
            "{} {} {} {}",
            case.book, figures.yes_no.total, figures.count.total, figures.least.total
        )?;
    }
    Ok(())
}

fn main(rt: HostRuntime) -> anyhow::Result<()> {
    let mut args = env::args(&rt)?.skip(1);
    let Some(book) = args.next() else {
        return print_stored(&rt);
    };
    let patterns = args.next().context("usage: bench BOOK PATTERNS TRACE")?;
    let trace = args.next().context("usage: bench BOOK PATTERNS TRACE")?;
    let case = Case {
        book: &book,
        patterns: patterns.parse::<usize>()?,
        trace: &trace,
    };
    print!(rt; "{}", measure(&rt, &case)?)?;
    Ok(())
}
