// Refused lines.
ghost use Rattle.std.specs.Prelude.{◌≡◌, Some};
ghost use Rattle.text.specs.Faults.{line_fault_number, line_fault_place, line_fault_text};

use std::error::Error;
use std::fmt;

// Why a line is refused, with the byte place in the text.
#[derive(Clone, Copy, Debug, PartialEq, Eq)]
pub enum LineFault {
    // a word of no kind
    Unknown(usize),
    // a number over its limit
    OverLimit(usize),
    // a word where it may not stand
    OutOfPlace(usize),
    // the line ends after its head or its arrow
    TooShort(usize),
}

impl LineFault {
    // The number of the refusal: by cases, since these hold a place and so are no numbers themselves.
    pub fn number(self) -> u8
        ensures { result ≡ line_fault_number self }
    {
        match self {
            LineFault::Unknown(_) => 20,
            LineFault::OverLimit(_) => 21,
            LineFault::OutOfPlace(_) => 22,
            LineFault::TooShort(_) => 23,
        }
    }

    // Its byte place in the text.
    pub fn place(self) -> usize
        ensures { result ≡ line_fault_place self }
    {
        match self {
            LineFault::Unknown(at)
            | LineFault::OverLimit(at)
            | LineFault::OutOfPlace(at)
            | LineFault::TooShort(at) => at,
        }
    }
}

impl fmt::Display for LineFault {
    ghost output = { λ f. Some (line_fault_text f) };

    fn fmt<W: fmt::Write>(&self, f: &mut fmt::Formatter<W>) -> fmt::Result {
        let cause = match self {
            LineFault::Unknown(_) => "an unknown word",
            LineFault::OverLimit(_) => "a number over its limit",
            LineFault::OutOfPlace(_) => "a word out of place",
            LineFault::TooShort(_) => "a line too short",
        };
        let place = self.place();
        let number = self.number();
        write!(f, "{cause} at byte {place} (refusal {number})")
    }
}

impl Error for LineFault {}
