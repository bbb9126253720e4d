// The weights of strict rules.
ghost use Rattle.std.specs.Prelude.{◌≡◌};
ghost use Rattle.grammar.specs.Lists.{Mem};
ghost use Rattle.grammar.specs.Chains.{reached, chosen_chain};
ghost use Rattle.grammar.specs.Strict.{strict_rules};
ghost use Rattle.grammar.specs.Cells.{chain_weight};
ghost use Rattle.grammar.specs.Weights.{binarised_weight, strict_weight_of};
ghost use Rattle.grammar.specs.Binarise.{binarised};
ghost use Rattle.conversion.specs.Views.{drop_of, strict_rule_of};
ghost use Rattle.chart.specs.Weights.{rules_book, Weighs};
ghost use Rattle.chart.specs.Inner.{dropped_weight};

use crate::blanks::Blanks;
use crate::nullable::rule_weight;
use crate::weighed::{WeighedRule, WeighedRules};
use conversion::chain::{Chain, Dropped, UnitStep};
use conversion::strict::StrictRule;
use weighing::bank::Bank;
use weighing::weighing::Weighing;

impl<'c, W: Weighing> Blanks<'c, W> {
    // The weight of what a unit step drops.
    fn dropped_weight(&self, dropped: Option<Dropped>) -> W::Value
        ensures { result ≡ dropped_weight W.Weighing.ops (W.Values.Bank.item self.now.bank.now) (drop_of dropped) }
    {
        match dropped {
            None => W::one(),
            Some(Dropped::Right(z)) => self.bank.get(z as usize),
            Some(Dropped::Left(y)) => self.bank.get(y as usize),
        }
    }

    // The weight of a unit step: that of its rule and of what it drops.
    fn step_weight(&self, step: UnitStep) -> W::Value
        ensures { result ≡ W.Weighing.ops.times (binarised_weight (rules_book self.now.converted.now.rules) W.Weighing.ops step.from step.number) (dropped_weight W.Weighing.ops (W.Values.Bank.item self.now.bank.now) (drop_of step.dropped)) }
    {
        W::times(
            rule_weight::<W>(self.converted.rules(), step.from, step.number),
            self.dropped_weight(step.dropped),
        )
    }

    // The product over the steps of the chosen chain from one symbol to another.
    fn chain_weight(&self, from: u8, to: u8) -> W::Value
        requires { Mem to (reached (binarised (rules_book self.now.converted.now.rules)) from) }
        ensures { result ≡ chain_weight (binarised (rules_book self.now.converted.now.rules)) W.Weighing.ops (binarised_weight (rules_book self.now.converted.now.rules) W.Weighing.ops) (chosen_chain (binarised (rules_book self.now.converted.now.rules)) from to) }
    {
        let mut product = W::one();
        let mut at = from;
        while let Some(Chain::Steps(_, step)) = self.converted.chain(at, to) {
            product = W::times(product, self.step_weight(step));
            at = step.to;
        }
        product
    }

    // The weight of a strict rule: that of its chain and of its own rule.
    fn strict_weight(&self, rule: StrictRule) -> W::Value
        requires { Mem (strict_rule_of rule) (strict_rules (binarised (rules_book self.now.converted.now.rules))) }
        ensures { result ≡ strict_weight_of (rules_book self.now.converted.now.rules) W.Weighing.ops (strict_rule_of rule) }
    {
        W::times(
            self.chain_weight(rule.symbol, rule.end),
            rule_weight::<W>(self.converted.rules(), rule.end, rule.number),
        )
    }

    // The strict rules in their order, each with its weight.
    pub(crate) fn strict_weights(&self) -> WeighedRules<W::Value>
        ensures { Weighs W.Weighing.ops (rules_book self.now.converted.now.rules) result.items }
    {
        let mut rules = WeighedRules::new_in(W::zero());
        for rule in self.converted.strict() {
            let weight = self.strict_weight(*rule);
            rules.push(WeighedRule {
                rule: *rule,
                weight,
            });
        }
        rules
    }
}
