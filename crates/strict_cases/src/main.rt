// Checks the strict form of rule books, and prints how many cases were run and how many agree; a case that differs is named.
// The file cases.txt has the cases, made by an independent implementation, but for the refusals and the last case, which were
// added to them. The lines of a case:
// - case NAME: what it shows.
// - patterns T: how many patterns there are.
// - rules in rule text, which are loaded.
// - refused N RULE: offered next, this rule is refused with number N, and the book stays as it was.
// - symbols S: how many symbols there are.
// - round K X ..: the symbols that round K found nullable; a round that found none is left out.
// - strict X Y N pair Z W, strict X Y N pattern P: the strict rules in order, by symbol, end of the chain, number and right side.
// - end.
#![tactic(auto)]

mod case;
mod form;
mod outcome;

use anyhow::ensure;
use case::Case;
use cases::agreement::run_cases;
use outcome::agrees;
use std::alloc::Global;
use std::{fs, mem};

// The cases of a text, each up to a line end. Lines behind the last end make no case, and may not name one. The lines are read one
// by one and not by `blocks`, which needs a list of all of them beside the cases.
fn stored<'t>(heap: Global, text: &'t str) -> anyhow::Result<Vec<Case<'t>>> {
    let mut list = Vec::new(heap);
    let mut case = Case::new(heap);
    for line in text.lines() {
        if line == "end" {
            list.push(mem::replace(&mut case, Case::new(heap)))?;
        } else {
            case.read(line)?;
        }
    }
    ensure!(case.name.is_empty(), "the last case has no end");
    Ok(list)
}

fn main(rt: HostRuntime) -> anyhow::Result<()> {
    let text = fs::read_to_string(&rt, "cases.txt")?;
    let list = stored(rt.alloc(), &text)?;
    run_cases(&rt, &list, |case| agrees(rt.alloc(), case))?;
    Ok(())
}
