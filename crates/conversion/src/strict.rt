// Strict rules.
ghost use Rattle.std.specs.Prelude.{◌≤◌};
ghost use Rattle.arrayvec.specs.ArrayVec.{array_vec_len};

use crate::right::Right;
use arrayvec::ArrayVec;

// A strict rule: its symbol, the symbol that the chosen chain leads to, and the number and right side (a pair or a pattern) of
// a rule of that symbol.
#[derive(Clone, Copy, Default)]
pub struct StrictRule {
    pub symbol: u8,
    pub end: u8,
    pub number: u8,
    pub right: Right,
}

// The first 1,024 strict rules, and whether these are all.
#[derive(Drop)]
pub struct StrictRules {
    pub(crate) rules: ArrayVec<StrictRule, 1024>,
    // a flag and no Result: a conversion does not fail, and the rules that found room stand
    pub(crate) complete: bool,
    ghost few: { array_vec_len rules ≤ 1024 },
}
