// Cases that are run.
ghost use Rattle.std.specs.Prelude.{Ok, IfOk};
ghost use Rattle.std.specs.Fn.{FnReturnsAt};
ghost use Rattle.cases.specs.Agreement.{Agreeing};

use std::fmt::Display;

// Runs each case once, and prints how many were run and how many agree; a case that differs is named. How many agree.
pub fn run_cases<C: Display, F: Fn(&C) -> anyhow::Result<bool>>(
    rt: &HostRuntime,
    cases: &[C],
    agrees: F,
) -> anyhow::Result<usize>
    requires { F.IsAlwaysCallable agrees }
    ensures { IfOk result (λ n. Agreeing (λ c b. FnReturnsAt F.Fn agrees c (Ok b)) cases.now n) }
{
    let mut agreed = 0;
    for case in cases {
        if agrees(case)? {
            agreed += 1;
        } else {
            println!(rt; "{case} differs")?;
        }
    }
    println!(rt; "{} cases run, {agreed} agree", cases.len())?;
    Ok(agreed)
}
