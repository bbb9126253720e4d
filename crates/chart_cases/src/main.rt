// Works through published examples and prints what the charts of their books hold.
// The file grammars.txt has books over bytes. The lines of a case:
// - case NAME: what it shows.
// - names N ..: the names of the heads from 0 on; a table needs them.
// - patterns BYTES: the patterns from 0 on.
// - rules in rule text.
// - table TRACE: the heads that derive each part of the trace are printed, a line for each length, by start. - stands for no head.
// - totals TRACE: whether there is a reading, how many there are and what the cheapest costs are printed.
// - end.
// The file cards.txt has one book over card events: lines pattern KIND LOWEST HIGHEST, rules in rule text, and lines
// totals KIND:ARGUMENT .., which print as above.
#![tactic(auto)]

mod cards;
mod case;
mod cells;
mod closed;
mod grammars;
mod totals;

use anyhow::ensure;
use cards::card_lines;
use case::Case;
use grammars::case_lines;
use std::alloc::Global;
use std::{fs, mem};

// The cases of a text, each up to a line end. Lines behind the last end make no case, and may not name one. The lines are read one
// by one and not by `blocks`, which needs a list of all of them beside the cases.
fn stored<'t>(heap: Global, text: &'t str) -> anyhow::Result<Vec<Case<'t>>> {
    let mut list = Vec::new(heap);
    let mut case = Case::new(heap);
    for line in text.lines() {
        if line == "end" {
            list.push(mem::replace(&mut case, Case::new(heap)))?;
        } else {
            case.read(heap, line)?;
        }
    }
    ensure!(case.name.is_empty(), "the last case has no end");
    Ok(list)
}

// Prints each case of bytes, once all of them are read.
fn print_grammars(rt: &HostRuntime) -> anyhow::Result<()> {
    let text = fs::read_to_string(rt, "grammars.txt")?;
    for case in &stored(rt.alloc(), &text)? {
        rt.print(case_lines(rt.alloc(), case)?)?;
    }
    Ok(())
}

// Prints the case of card events.
fn print_cards(rt: &HostRuntime) -> anyhow::Result<()> {
    let text = fs::read_to_string(rt, "cards.txt")?;
    rt.print(card_lines(rt.alloc(), &text)?)?;
    Ok(())
}

fn main(rt: HostRuntime) -> anyhow::Result<()> {
    print_grammars(&rt)?;
    print_cards(&rt)
}
