// What a weighing is: values, how alternatives and parts combine, and what a rule's cost weighs.
ghost use Rattle.std.specs.Prelude.{◌≡◌, ◌≤◌, ◌↔◌, true};
ghost use prog.Memory.{size};
ghost use denote.Param.{layout};
ghost use Rattle.grammar.specs.Semiring.{Ops, Semiring};

use crate::bank::Bank;

pub trait Weighing {
    type Value: Copy;
    // a value for each of 128 symbols
    type Values: Bank<Value = Self::Value>;

    // the operations, as the contracts name them
    ghost ops: { Ops Self.Value };

    // The weight of no derivation.
    fn zero() -> Self::Value
        ensures { result ≡ ops.zero };

    // The weight of a derivation without parts.
    fn one() -> Self::Value
        ensures { result ≡ ops.one };

    // The weight of alternatives.
    fn plus(a: Self::Value, b: Self::Value) -> Self::Value
        ensures { result ≡ ops.plus a b };

    // The weight of parts together.
    fn times(a: Self::Value, b: Self::Value) -> Self::Value
        ensures { result ≡ ops.times a b };

    // What a rule of this cost weighs.
    fn weight(cost: u16) -> Self::Value
        ensures { result ≡ ops.weight cost };

    // Whether a value is the weight of no derivation, so that work on it can be left out.
    fn is_zero(v: Self::Value) -> bool
        ensures { (result ≡ true) ↔ (v ≡ ops.zero) };

    ghost semiring: { Semiring ops };

    // a value takes less than 2^52 bytes, so that a thousand of them have room in memory
    ghost small: { size (layout Self.Value.row) ≤ 4503599627370496 };

    // there is a place for each of 128 symbols
    ghost wide: { 128 ≤ Self.Values.Bank.size };
}
