// Lists of stored cases.
ghost use Rattle.std.specs.Prelude.{◌≡◌, ◌≤◌, length, vec_len, Some, IfOk};
ghost use Rattle.cases.specs.Blocks.{Parted, fault_text, texts};
ghost use Rattle.cases.specs.declared.blocks.BlockFault.TheVariants.{NoMemory};

use std::alloc::{AllocError, Global};
use std::error::Error;
use std::fmt;

// Why lines are not parted into blocks.
#[derive(Clone, Copy, PartialEq, Eq, Debug)]
pub enum BlockFault {
    NoEnd,
    NoMemory,
}

impl fmt::Display for BlockFault {
    ghost output = { λ f. Some (fault_text f) };

    fn fmt<W: fmt::Write>(&self, f: &mut fmt::Formatter<W>) -> fmt::Result {
        match self {
            BlockFault::NoEnd => write!(f, "the last case has no end"),
            BlockFault::NoMemory => write!(f, "memory allocation failed"),
        }
    }
}

impl Error for BlockFault {}

impl From<AllocError> for BlockFault {
    ghost from_gives = { λ _ fault. fault ≡ NoMemory };

    fn from(_error: AllocError) -> BlockFault {
        BlockFault::NoMemory
    }
}

// The lines of each case of a text. A line end ends a case.
pub fn blocks<'t>(heap: Global, lines: &'t [&'t str]) -> Result<Vec<&'t [&'t str]>, BlockFault>
    ensures few { IfOk result (λ v. vec_len v ≤ length lines.now) }
    ensures parted { Parted (texts lines.now) result }
{
    let inner = lines.strip_suffix(&["end"]).ok_or(BlockFault::NoEnd)?;
    Ok(inner.split(|line| *line == "end").collect(heap)?)
}
