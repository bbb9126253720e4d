// The answer that each call gets.
ghost use Rattle.std.specs.Prelude.{Some};
ghost use Rattle.replay.specs.Answers.{said, saying_text};

use book::fault::{LoadFault, OfferFault, StrikeFault};
use chart::fault::{FeedFault, WithdrawFault};
use std::fmt;

// What one call answered.
#[derive(Clone, Copy, Debug, PartialEq, Eq)]
pub enum Answer {
    // an offer: the rule's number
    Offered(Result<usize, OfferFault>),
    // a load: how many lines were offered
    Loaded(Result<usize, LoadFault>),
    // a strike: how many rules remain
    Struck(Result<usize, StrikeFault>),
    // a feed: how many events are held
    Fed(Result<usize, FeedFault>),
    // a withdrawal: how many events are held
    Withdrawn(Result<usize, WithdrawFault>),
}

impl fmt::Display for Answer {
    ghost output = { λ answer. Some (saying_text (said answer)) };

    fn fmt<W: fmt::Write>(&self, f: &mut fmt::Formatter<W>) -> fmt::Result {
        match self {
            Answer::Offered(Ok(n))
            | Answer::Loaded(Ok(n))
            | Answer::Struck(Ok(n))
            | Answer::Fed(Ok(n))
            | Answer::Withdrawn(Ok(n)) => write!(f, "{n}"),
            Answer::Offered(Err(fault)) => write!(f, "refused {}", fault.number()),
            Answer::Loaded(Err(fault)) => write!(f, "refused {} {}", fault.number(), fault.place()),
            Answer::Struck(Err(fault)) => write!(f, "refused {}", fault.number()),
            Answer::Fed(Err(fault)) => write!(f, "refused {}", fault.number()),
            Answer::Withdrawn(Err(fault)) => write!(f, "refused {}", fault.number()),
        }
    }
}
