// Checks the readings of stored cases, and prints how many were run and how many agree; a case that differs is named. Then prints the
// readings of large tables and deep books, and those of card events.
// The file readings.txt has cases made by an independent implementation. The lines of a case:
// - case NAME: what it shows.
// - patterns T: how many patterns there are.
// - rules in rule text, which are loaded.
// - trace EVENTS: the events, as letters.
// - table N: how many places the table of nodes has.
// - none, nodes N, or refused N: the answer.
// - node RULE FIRST COUNT: the nodes that stand in the table, in order. Every place past them is as it was.
// - end.
// The file large.txt has cases of the same lines up to the table. What is printed of them: the answer, how many nodes were written, how many
// places after them are as they were, how many nodes each rule has, and a digest of all nodes.
// The file cards.txt has one book over card events: lines pattern KIND LOWEST HIGHEST, rules in rule text, lines reading KIND:ARGUMENT ..,
// of which the answer and each node with its part of the trace are printed, and lines part FIRST COUNT of KIND:ARGUMENT .., of which
// the events of such a node are printed.
#![tactic(auto)]

mod cards;
mod case;
mod filled;
mod large;

use cards::card_lines;
use case::Case;
use cases::agreement::run_cases;
use cases::blocks::blocks;
use large::large_lines;
use std::alloc::Global;
use std::fs;

// The cases of these lines.
fn stored<'t>(heap: Global, lines: &'t [&'t str]) -> anyhow::Result<Vec<Case<'t>>> {
    blocks(heap, lines)?
        .into_iter()
        .map(|block| Case::of(heap, block))
        .try_collect(heap)
}

// Runs the stored cases.
fn run_stored(rt: &HostRuntime) -> anyhow::Result<()> {
    let text = fs::read_to_string(rt, "readings.txt")?;
    let lines: Vec<&str> = text.lines().collect(rt.alloc())?;
    let list = stored(rt.alloc(), &lines)?;
    run_cases(rt, &list, |case| case.agrees(rt.alloc()))?;
    Ok(())
}

// Prints each case of a large table or a deep book.
fn print_large(rt: &HostRuntime) -> anyhow::Result<()> {
    let text = fs::read_to_string(rt, "large.txt")?;
    let lines: Vec<&str> = text.lines().collect(rt.alloc())?;
    for case in stored(rt.alloc(), &lines)? {
        rt.print(large_lines(rt.alloc(), &case)?)?;
    }
    Ok(())
}

// Prints the case of card events.
fn print_cards(rt: &HostRuntime) -> anyhow::Result<()> {
    let text = fs::read_to_string(rt, "cards.txt")?;
    rt.print(card_lines(rt.alloc(), &text)?)?;
    Ok(())
}

fn main(rt: HostRuntime) -> anyhow::Result<()> {
    run_stored(&rt)?;
    print_large(&rt)?;
    print_cards(&rt)
}
