// Why a replay is refused.
ghost use Rattle.std.specs.Prelude.{Some};
ghost use Rattle.replay.specs.Faults.{replay_text};

use std::error::Error;
use std::fmt;

// Why a replay is refused. It is no refusal of a call, and so has no number.
#[derive(Clone, Copy, Debug, PartialEq, Eq)]
pub enum ReplayFault {
    // there are more calls than places for their answers, or fewer
    OtherAnswers,
}

impl fmt::Display for ReplayFault {
    ghost output = { λ f. Some (replay_text f) };

    fn fmt<W: fmt::Write>(&self, f: &mut fmt::Formatter<W>) -> fmt::Result {
        match self {
            ReplayFault::OtherAnswers => write!(f, "not as many answers as calls"),
        }
    }
}

impl Error for ReplayFault {}
