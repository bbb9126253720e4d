// Reads standard input, at most one byte more than the program takes, and prints what the script program makes of it.
#![tactic(auto)]

use programs::script::{LIMIT, script};
use std::io::Read;

// Standard input to its end, or one byte more than the program takes.
fn read_input(rt: &HostRuntime) -> anyhow::Result<Vec<u8>> {
    let mut input = Vec::new(rt.alloc());
    rt.stdin().take(LIMIT as u64 + 1).read_to_end(&mut input)?;
    Ok(input)
}

fn main(rt: HostRuntime) -> anyhow::Result<()> {
    let input = read_input(&rt)?;
    rt.print(script(rt.alloc(), &input)?)?;
    Ok(())
}
