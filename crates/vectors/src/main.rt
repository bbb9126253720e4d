// Runs the cases of the line program, and prints how many were run and how many agree; a case that differs is named.
// The file cases.txt has their names, one to a line, in ascending order. NAME.in is a case's input, NAME.out the output expected.
// The cases were made by an independent implementation, and a few by hand. A name says what its case shows:
// - refused_NN, accepted, divider, trace, size, empty: how the input is read; NN is the refusal, and what follows its cause.
// - chosen, counted, count, least_cost and names of a book: what the totals are.
// - random, large_costs, at_limit: a book made at random, by its numbers of rules, tails and strict rules (strict), and by these:
//   nullable_start or nullable_parts, whether the start head or only others derive nothing; units, unit_loop or unit_ring, whether
//   there are unit rules, heads that step to themselves, or heads that step to each other; and the highest count of a trace:
//   nothing_read, one_way_each, ambiguous or count_at_cap. near_limit: the longest trace that a table has room for.
#![tactic(auto)]

mod order;

use anyhow::ensure;
use cases::agreement::run_cases;
use order::ascending;
use programs::line::line;
use std::fs;

// Whether the line program makes of a case's input what is expected.
fn agrees(rt: &HostRuntime, name: &str) -> anyhow::Result<bool> {
    let heap = rt.alloc();
    let input = fs::read(rt, format!(in heap; "{name}.in")?)?;
    let expected = fs::read(rt, format!(in heap; "{name}.out")?)?;
    let out = line(heap, &input)?;
    Ok(out.as_bytes() == expected.as_slice())
}

fn main(rt: HostRuntime) -> anyhow::Result<()> {
    let list = fs::read_to_string(&rt, "cases.txt")?;
    let names: Vec<&str> = list.lines().collect(rt.alloc())?;
    ensure!(ascending(&names), "cases.txt is not in ascending order");
    run_cases(&rt, &names, |name| agrees(&rt, name))?;
    Ok(())
}
