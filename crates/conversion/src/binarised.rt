// The list of binarised rules.
ghost use Rattle.std.specs.Prelude.{◌≤◌};
ghost use Rattle.arrayvec.specs.ArrayVec.{array_vec_len};
ghost use Rattle.grammar.specs.Binarised.{Bounded};
ghost use Rattle.conversion.specs.Views.{binarised_of};

use crate::right::BinarisedRule;
use arrayvec::ArrayVec;

// At most 64 productions with 64 tails give at most 128 binarised rules, and the patterns' own symbols 32 more. Symbols below
// 32 are heads, 32 + t is pattern t's own symbol, those from 64 on are tails.
#[derive(Drop)]
pub struct BinarisedRules {
    pub(crate) rules: ArrayVec<BinarisedRule, 160>,
    pub(crate) symbols: usize,
    ghost few: { array_vec_len rules ≤ 160 },
    ghost least: { 64 ≤ symbols },
    ghost most: { symbols ≤ 128 },
    ghost bounded: { Bounded (binarised_of rules.items symbols) },
}
