// The weights of binarised rules, and of the chosen derivations of nothing, worked out round by round.
ghost use Rattle.std.specs.Prelude.{◌≡◌, ℕ, suc, ◌<◌, ◌≤◌};
ghost use Rattle.grammar.specs.Binarise.{binarised};
ghost use Rattle.grammar.specs.Nullable.{nullable_after, nullable};
ghost use Rattle.grammar.specs.Weights.{binarised_weight};
ghost use Rattle.conversion.specs.Views.{right_side_of};
ghost use Rattle.chart.specs.Weights.{rules_book, NullableWeights};
ghost use Rattle.chart.specs.Inner.{WeightsAfter, right_weight};

use crate::symbols::HEADS;
use book::converted::Converted;
use book::rules::Rules;
use conversion::nullable::Brought;
use conversion::right::Right;
use weighing::bank::Bank;
use weighing::weighing::Weighing;

// The weight of a binarised rule: a production's cost counts at its head's rule; a tail's rule and that of a pattern's own
// symbol weigh one.
pub(crate) fn rule_weight<W: Weighing>(rules: &Rules, symbol: u8, number: u8) -> W::Value
    ensures { result ≡ binarised_weight (rules_book rules.now) W.Weighing.ops symbol number }
{
    if symbol < HEADS {
        W::weight(rules.cost(number))
    } else {
        W::one()
    }
}

// The weight of what a right side of nullable symbols stands for.
fn right_weight<W: Weighing>(bank: &W::Values, right: Right) -> W::Value
    ensures { result ≡ right_weight W.Weighing.ops (W.Values.Bank.item bank.now) (right_side_of right) }
{
    match right {
        Right::Empty => W::one(),
        Right::Unit(y) => bank.get(y as usize),
        Right::Binary(y, z) => W::times(bank.get(y as usize), bank.get(z as usize)),
        Right::Terminal(_) => W::zero(),
    }
}

// The weight of the derivation of nothing that the chosen rule gives.
fn brought_weight<W: Weighing>(bank: &W::Values, rules: &Rules, symbol: u8, by: Brought) -> W::Value
    ensures { result ≡ W.Weighing.ops.times (binarised_weight (rules_book rules.now) W.Weighing.ops symbol by.number) (right_weight W.Weighing.ops (W.Values.Bank.item bank.now) (right_side_of by.right)) }
{
    W::times(
        rule_weight::<W>(rules, symbol, by.number),
        right_weight::<W>(bank, by.right),
    )
}

// The symbols that came in in one round, from those of the rounds before.
fn round<W: Weighing>(bank: &mut W::Values, converted: &Converted, round: u8)
    requires { WeightsAfter W.Weighing.ops (rules_book converted.now.rules) round (W.Values.Bank.item bank.old) }
    ensures { WeightsAfter W.Weighing.ops (rules_book converted.now.rules) (suc round) (W.Values.Bank.item bank.new) }
{
    for symbol in 0..128 {
        if let Some(by) = converted.brought(symbol) {
            if by.round == round {
                let weight = brought_weight::<W>(bank, converted.rules(), symbol, by);
                bank.put(symbol as usize, weight);
            }
        }
    }
}

// How many rounds bring symbols in: after so many no nullable symbol is missing, so that a feed need not make the others.
fn rounds(converted: &Converted) -> usize
    ensures all { (x : ℕ) → x < 128 → nullable_after (binarised (rules_book converted.now.rules)) result x ≡ nullable (binarised (rules_book converted.now.rules)) x }
    ensures few { result ≤ 256 }
{
    let mut rounds = 0;
    for symbol in 0..128 {
        if let Some(by) = converted.brought(symbol) {
            if by.round as usize >= rounds {
                rounds = by.round as usize + 1;
            }
        }
    }
    rounds
}

// The weight of the chosen derivation of nothing for each nullable symbol, and zero for the others.
pub(crate) fn nullable_weights<W: Weighing>(converted: &Converted) -> W::Values
    ensures { NullableWeights W.Weighing.ops (rules_book converted.now.rules) (W.Values.Bank.item result) }
{
    let mut bank = W::Values::all(W::zero());
    for at in 0..rounds(converted) {
        round::<W>(&mut bank, converted, at as u8);
    }
    bank
}
