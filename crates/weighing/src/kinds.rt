// Three weighings: whether there is a derivation, how many there are, and what the cheapest costs.
ghost use Rattle.std.specs.Prelude.{◌≡◌, ◌+◌};
ghost use Rattle.grammar.specs.Weighings.{yes_no};
ghost use Rattle.weighing.specs.Values.{held, counts, least_costs};
ghost use Rattle.weighing.specs.Laws.{yes_no_laws, counts_laws, least_costs_laws};
ghost use Rattle.std.proofs.Common.{lit≤};

use crate::bank::Bank128;
use crate::capped::Capped;
use crate::weighing::Weighing;

// Whether there is a derivation.
pub struct YesNo {}

impl Weighing for YesNo {
    type Value = bool;

    type Values = Bank128<bool>;

    ghost ops = { yes_no };

    ghost semiring = { yes_no_laws };

    ghost small = { lit≤ tt };

    ghost wide = { lit≤ tt };

    fn zero() -> bool {
        false
    }

    fn one() -> bool {
        true
    }

    fn plus(a: bool, b: bool) -> bool {
        a | b
    }

    fn times(a: bool, b: bool) -> bool {
        a & b
    }

    fn weight(_cost: u16) -> bool {
        true
    }

    fn is_zero(v: bool) -> bool {
        !v
    }
}

// The sum of two numbers, held at the largest of 32 bits.
fn held_sum(a: Capped, b: Capped) -> Capped
    ensures { result ≡ held (a.n + b.n) }
{
    Capped::of(a.value().saturating_add(b.value()))
}

// How many derivations there are, held at the largest number of 32 bits.
pub struct Count {}

impl Weighing for Count {
    type Value = Capped;

    type Values = Bank128<Capped>;

    ghost ops = { counts };

    ghost semiring = { counts_laws };

    ghost small = { lit≤ tt };

    ghost wide = { lit≤ tt };

    fn zero() -> Capped {
        Capped::of(0)
    }

    fn one() -> Capped {
        Capped::of(1)
    }

    fn plus(a: Capped, b: Capped) -> Capped {
        held_sum(a, b)
    }

    fn times(a: Capped, b: Capped) -> Capped {
        // in 64 bits, where no product of two numbers of 32 wraps: one multiplication, and the feeds of counts spend most of their time on it
        let product = u64::from(a.value()) * u64::from(b.value());
        Capped::of(product.min(u64::from(u32::MAX)) as u32)
    }

    fn weight(_cost: u16) -> Capped {
        Capped::of(1)
    }

    fn is_zero(v: Capped) -> bool {
        v.value() == 0
    }
}

// The cost of the cheapest derivation; the largest number of 32 bits where there is none.
pub struct LeastCost {}

impl Weighing for LeastCost {
    type Value = Capped;

    type Values = Bank128<Capped>;

    ghost ops = { least_costs };

    ghost semiring = { least_costs_laws };

    ghost small = { lit≤ tt };

    ghost wide = { lit≤ tt };

    fn zero() -> Capped {
        Capped::of(u32::MAX)
    }

    fn one() -> Capped {
        Capped::of(0)
    }

    fn plus(a: Capped, b: Capped) -> Capped {
        Capped::of(a.value().min(b.value()))
    }

    fn times(cost: Capped, more: Capped) -> Capped {
        held_sum(cost, more)
    }

    fn weight(cost: u16) -> Capped {
        Capped::of(u32::from(cost))
    }

    fn is_zero(v: Capped) -> bool {
        v.value() == u32::MAX
    }
}
