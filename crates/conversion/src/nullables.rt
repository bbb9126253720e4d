// Nullable symbols by rounds: a round looks only at what was held before it.
ghost use Rattle.std.specs.Prelude.{◌≡◌, suc, false, is_some, Some, None, slice_index_or, slice_set};
ghost use Rattle.grammar.specs.Nullable.{ready as made_of};
ghost use Rattle.conversion.specs.Binarised.{grammar_of};
ghost use Rattle.conversion.specs.Held.{Nullables};
ghost use Rattle.conversion.specs.Rounds.{sooner, NullablesAfter};
ghost use Rattle.conversion.specs.Views.{right_side_of};

use crate::binarised::BinarisedRules;
use crate::nullable::{Brought, Nullable};
use crate::right::Right;

impl Nullable {
    // What brought a symbol in, if anything did.
    pub(crate) fn get(&self, symbol: u8) -> Option<Brought>
        ensures { result ≡ slice_index_or self.now.brought symbol None }
    {
        *self.brought.get(symbol as usize)?
    }

    // Whether the symbol derives nothing.
    pub(crate) fn holds(&self, symbol: u8) -> bool
        ensures { result ≡ is_some (slice_index_or self.now.brought symbol None) }
    {
        self.get(symbol).is_some()
    }

    // Whether an earlier round brought the symbol in.
    fn before(&self, symbol: u8, round: u8) -> bool
        ensures { result ≡ sooner round (slice_index_or self.now.brought symbol None) }
    {
        self.get(symbol).is_some_and(|b| b.round < round)
    }

    // Whether a right side is made of symbols of earlier rounds alone.
    fn ready(&self, right: Right, round: u8) -> bool
        ensures { result ≡ made_of (λ y. sooner round (slice_index_or self.now.brought y None)) (right_side_of right) }
    {
        match right {
            Right::Empty => true,
            Right::Unit(y) => self.before(y, round),
            Right::Binary(y, z) => self.before(y, round) && self.before(z, round),
            Right::Terminal(_) => false,
        }
    }

    // A symbol comes in.
    // A test of the bound, and no get_mut: after that the proof has no name for the table.
    fn put(&mut self, symbol: u8, by: Brought)
        ensures { self.new.brought ≡ slice_set self.old.brought symbol (Some by) }
    {
        if symbol < 128 {
            self.brought[symbol as usize] = Some(by);
        }
    }

    // One round: each symbol not yet held comes in by its first rule that is ready. Whether any came in.
    fn round(&mut self, binarised: &BinarisedRules, round: u8) -> bool
        requires { NullablesAfter (grammar_of binarised.now) round self.old }
        ensures more { NullablesAfter (grammar_of binarised.now) (suc round) self.new }
        ensures rest { result ≡ false → self.new.brought ≡ self.old.brought }
    {
        let mut grew = false;
        for rule in binarised.rules.iter() {
            // & and no &&, so that the proof has one test to follow
            if !self.holds(rule.left) & self.ready(rule.right, round) {
                self.put(
                    rule.left,
                    Brought {
                        round,
                        number: rule.number,
                        right: rule.right,
                    },
                );
                grew = true;
            }
        }
        grew
    }
}

// The nullable symbols of binarised rules. Every round but the last brings a symbol in, so 128 rounds are enough.
pub(crate) fn nullable(binarised: &BinarisedRules) -> Nullable
    ensures { Nullables (grammar_of binarised.now) result }
{
    let mut out = Nullable {
        brought: [None; 128],
    };
    for round in 0..128 {
        if !out.round(binarised, round) {
            break;
        }
    }
    out
}
