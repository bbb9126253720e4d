// Why a script is not run.
ghost use Rattle.std.specs.Prelude.{◌≡◌, Some};
ghost use Rattle.programs.specs.Faults.{cause_text, script_fault_text, no_memory};

use std::alloc::AllocError;
use std::error::Error;
use std::fmt;

// What is wrong with a line of a script.
#[derive(Clone, Copy, Debug, PartialEq, Eq)]
pub enum Cause {
    // the script begins with no alphabet
    NoAlphabet,
    // the first word is none that a line begins with
    UnknownLine,
    // the words after it are not those that the line wants, or a number is over its limit
    OtherWords,
    // patterns after a call of the book, or either after a call of the chart
    OutOfPlace,
    // rules without their end
    NoEnd,
}

impl fmt::Display for Cause {
    ghost output = { λ cause. Some (cause_text cause) };

    fn fmt<W: fmt::Write>(&self, f: &mut fmt::Formatter<W>) -> fmt::Result {
        let cause = match self {
            Cause::NoAlphabet => "no alphabet at the beginning",
            Cause::UnknownLine => "an unknown first word",
            Cause::OtherWords => "other words than the line wants",
            Cause::OutOfPlace => "a line out of place",
            Cause::NoEnd => "rules without their end",
        };
        write!(f, "{cause}")
    }
}

// Why a script is not run.
#[derive(Clone, Copy, Debug, PartialEq, Eq)]
pub enum ScriptFault {
    // the line of this number, counted from 1, is malformed
    Line(usize, Cause),
    NoMemory(AllocError),
}

impl fmt::Display for ScriptFault {
    ghost output = { script_fault_text };

    fn fmt<W: fmt::Write>(&self, f: &mut fmt::Formatter<W>) -> fmt::Result {
        match self {
            ScriptFault::Line(number, cause) => write!(f, "line {number}: {cause}"),
            ScriptFault::NoMemory(error) => write!(f, "{error}"),
        }
    }
}

impl Error for ScriptFault {}

impl From<AllocError> for ScriptFault {
    ghost from_gives = { λ e f. f ≡ no_memory e };

    fn from(error: AllocError) -> ScriptFault {
        ScriptFault::NoMemory(error)
    }
}
