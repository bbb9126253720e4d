// Why a call is refused. The numbers of the refusals are given by one definition for each kind of fault, so each kind has a number call
// of its own: a trait for that one line would say no more.
ghost use Rattle.std.specs.Prelude.{◌≡◌, Some};
ghost use Rattle.book.specs.Faults.{table_number, offer_number, strike_number, load_number, load_place, table_text, offer_text, strike_text, load_text};

use std::error::Error;
use std::fmt;
use text::fault::LineFault;

// Why a table of patterns is refused.
#[derive(Clone, Copy, Debug, PartialEq, Eq)]
pub enum TableFault {
    // more than 32 patterns
    TooManyPatterns = 8,
}

// Why an offered rule is refused.
#[derive(Clone, Copy, Debug, PartialEq, Eq)]
pub enum OfferFault {
    // a head over 31
    HeadTooLarge = 1,
    // more than 8 items
    TooManyItems = 2,
    // an item that is neither a head nor a pattern of the table
    UnknownItem = 3,
    // the same head and right side are held
    Repeated = 4,
    // 64 rules are held
    BookFull = 5,
    // more than 64 tails
    TooManyTails = 6,
    // more than 1,024 strict rules
    TooManyStrictRules = 7,
}

// Why a strike is refused.
#[derive(Clone, Copy, Debug, PartialEq, Eq)]
pub enum StrikeFault {
    // no rule is held
    NoRule = 10,
}

// Why a load is refused.
#[derive(Clone, Copy, Debug, PartialEq, Eq)]
pub enum LoadFault {
    // a word or a line is at fault
    Line(LineFault),
    // the book refuses the rule of a line; the place of the line's first word
    Refused(usize),
}

impl TableFault {
    // The number of the refusal.
    pub fn number(self) -> u8
        ensures { result ≡ table_number self }
    {
        self as u8
    }
}

impl OfferFault {
    // The number of the refusal.
    pub fn number(self) -> u8
        ensures { result ≡ offer_number self }
    {
        self as u8
    }
}

impl StrikeFault {
    // The number of the refusal.
    pub fn number(self) -> u8
        ensures { result ≡ strike_number self }
    {
        self as u8
    }
}

impl LoadFault {
    // The number of the refusal: by cases, since these hold a fault or a place and so are no numbers themselves.
    pub fn number(self) -> u8
        ensures { result ≡ load_number self }
    {
        match self {
            LoadFault::Line(fault) => fault.number(),
            LoadFault::Refused(_) => 24,
        }
    }

    // Its byte place in the text.
    pub fn place(self) -> usize
        ensures { result ≡ load_place self }
    {
        match self {
            LoadFault::Line(fault) => fault.place(),
            LoadFault::Refused(at) => at,
        }
    }
}

impl fmt::Display for TableFault {
    ghost output = { λ f. Some (table_text f) };

    fn fmt<W: fmt::Write>(&self, f: &mut fmt::Formatter<W>) -> fmt::Result {
        let number = self.number();
        match self {
            TableFault::TooManyPatterns => write!(f, "more than 32 patterns (refusal {number})"),
        }
    }
}

impl fmt::Display for OfferFault {
    ghost output = { λ f. Some (offer_text f) };

    fn fmt<W: fmt::Write>(&self, f: &mut fmt::Formatter<W>) -> fmt::Result {
        let cause = match self {
            OfferFault::HeadTooLarge => "a head over 31",
            OfferFault::TooManyItems => "more than 8 items",
            OfferFault::UnknownItem => "an item that is neither a head nor a pattern",
            OfferFault::Repeated => "a rule that is held already",
            OfferFault::BookFull => "more than 64 rules",
            OfferFault::TooManyTails => "more than 64 tails",
            OfferFault::TooManyStrictRules => "more than 1024 strict rules",
        };
        let number = self.number();
        write!(f, "{cause} (refusal {number})")
    }
}

impl fmt::Display for StrikeFault {
    ghost output = { λ f. Some (strike_text f) };

    fn fmt<W: fmt::Write>(&self, f: &mut fmt::Formatter<W>) -> fmt::Result {
        let number = self.number();
        match self {
            StrikeFault::NoRule => write!(f, "no rule to strike (refusal {number})"),
        }
    }
}

impl fmt::Display for LoadFault {
    ghost output = { λ f. Some (load_text f) };

    fn fmt<W: fmt::Write>(&self, f: &mut fmt::Formatter<W>) -> fmt::Result {
        let number = self.number();
        match self {
            LoadFault::Line(fault) => write!(f, "{fault}"),
            LoadFault::Refused(at) => write!(
                f,
                "a rule that the book refuses in the line at byte {at} (refusal {number})"
            ),
        }
    }
}

impl Error for TableFault {}

impl Error for OfferFault {}

impl Error for StrikeFault {}

impl Error for LoadFault {}
