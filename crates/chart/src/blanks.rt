// The weights of the chosen derivations of nothing, beside the rules that they are of.
ghost use Rattle.chart.specs.Weights.{rules_book, NullableWeights};

use book::converted::Converted;
use weighing::weighing::Weighing;

// Rules with their strict form, and the weight of the chosen derivation of nothing of each nullable symbol.
#[derive(Drop)]
pub(crate) struct Blanks<'c, W: Weighing> {
    pub(crate) converted: &'c Converted,
    pub(crate) bank: &'c W::Values,
    ghost weights: { ∥ NullableWeights W.Weighing.ops (rules_book converted.now.rules) (W.Values.Bank.item bank.now) ∥₁ },
}
