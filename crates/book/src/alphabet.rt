// Alphabets: a kind of event, a kind of pattern, and which pattern fits which event.
ghost use Rattle.std.specs.Prelude.{◌≡◌, Bool, nat_eq};
ghost use Rattle.book.specs.Fits.{CardFits, card_test, Tests};
ghost use Rattle.book.specs.Tested.{bytes_tested, cards_tested};

use crate::kinds::{CardEvent, CardPattern};

pub trait Alphabet {
    type Event: Copy;

    type Pattern: Copy;

    // the pattern fits the event
    ghost fits: { Self.Pattern → Self.Event → Type 0 };

    // the same as a test, as the contracts name it
    ghost test: { Self.Pattern → Self.Event → Bool };

    // Whether the pattern fits the event.
    fn fit(pattern: Self::Pattern, event: Self::Event) -> bool
        ensures { result ≡ test pattern event };

    // the test says yes exactly of what fits
    ghost tested: { Tests fits test };
}

// Bytes: a pattern is one byte and fits its equal.
pub struct Bytes {}

impl Alphabet for Bytes {
    type Event = u8;

    type Pattern = u8;

    ghost fits = { λ p e. p ≡ e };

    ghost test = { nat_eq };

    ghost tested = { bytes_tested };

    fn fit(pattern: u8, event: u8) -> bool {
        pattern == event
    }
}

// Card events: a pattern fits an event of its kind whose argument lies in its range.
pub struct Cards {}

impl Alphabet for Cards {
    type Event = CardEvent;

    type Pattern = CardPattern;

    ghost fits = { CardFits };

    ghost test = { card_test };

    ghost tested = { cards_tested };

    fn fit(pattern: CardPattern, event: CardEvent) -> bool {
        pattern.kind == event.kind && (pattern.lowest..=pattern.highest).contains(&event.argument)
    }
}
