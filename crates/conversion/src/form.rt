// The strict form of a list of productions.
ghost use Rattle.std.specs.Prelude.{◌≡◌, ◌<◌, ◌≤◌, List, [], ◌∷◌, ◌++◌, map, None, slice_index_or};
ghost use Rattle.grammar.specs.Lists.{those};
ghost use Rattle.grammar.specs.Binarised.{OwnRule, rules_in};
ghost use Rattle.grammar.specs.Productions.{Sound};
ghost use Rattle.grammar.specs.Strict.{StrictFormRule, proper as stands, strict_rule, strict_rules_of, strict_rules};
ghost use Rattle.conversion.specs.Binarised.{rows_book, grammar_of};
ghost use Rattle.conversion.specs.Forms.{FormOf, Holds};
ghost use Rattle.conversion.specs.Views.{right_side_of, rule_of, strict_rule_of};
ghost use Rattle.conversion.specs.Linked.{ChainsWithin};

use crate::binarise::binarise;
use crate::binarised::BinarisedRules;
use crate::chain::{Chain, Chains};
use crate::chains::chains;
use crate::nullable::{Brought, Nullable};
use crate::nullables::nullable;
use crate::production::Production;
use crate::right::{BinarisedRule, Right};
use crate::strict::{StrictRule, StrictRules};
use arrayvec::ArrayVec;

// Whether a right side stands in a strict rule: a pair or a pattern.
fn proper(right: Right) -> bool
    ensures { result ≡ stands (right_side_of right) }
{
    matches!(right, Right::Binary(_, _) | Right::Terminal(_))
}

impl StrictRules {
    // One rule more at the end, or the note that there was no room for it.
    fn push(&mut self, rule: StrictRule)
        ensures { (l : List StrictFormRule) → Holds l self.old → Holds (l ++ (strict_rule_of rule ∷ [])) self.new }
    {
        if self.rules.try_push(rule).is_err() {
            self.complete = false;
        }
    }

    // The strict rules of a symbol by the rules of the symbol that its chain leads to.
    fn through(&mut self, symbol: u8, end: u8, rules: &[BinarisedRule])
        ensures { (l : List StrictFormRule) → Holds l self.old → Holds (l ++ map (strict_rule symbol end) (those (λ (o : OwnRule). stands o.1) (rules_in end (map rule_of rules.now)))) self.new }
    {
        for rule in rules {
            if rule.left == end && proper(rule.right) {
                self.push(StrictRule {
                    symbol,
                    end,
                    number: rule.number,
                    right: rule.right,
                });
            }
        }
    }

    // The strict rules of a symbol.
    fn of(&mut self, symbol: u8, binarised: &BinarisedRules, chains: &Chains)
        requires chosen { ChainsWithin (grammar_of binarised.now) (grammar_of binarised.now).symbols chains.now }
        requires symbol { symbol < 128 }
        ensures { (l : List StrictFormRule) → Holds l self.old → Holds (l ++ strict_rules_of (grammar_of binarised.now) symbol) self.new }
    {
        for end in 0..128 {
            if chains.reaches(symbol, end) {
                self.through(symbol, end, &binarised.rules);
            }
        }
    }

    // The strict rules, by symbol, then by the end of the chain, then by number.
    fn all(binarised: &BinarisedRules, chains: &Chains) -> StrictRules
        requires { ChainsWithin (grammar_of binarised.now) (grammar_of binarised.now).symbols chains.now }
        ensures { Holds (strict_rules (grammar_of binarised.now)) result }
    {
        let mut out = StrictRules {
            rules: ArrayVec::new(),
            complete: true,
        };
        for symbol in 0..128 {
            out.of(symbol, binarised, chains);
        }
        out
    }
}

// What a conversion gives: binarised rules, nullable symbols, chosen chains, strict rules.
#[derive(Drop)]
pub struct StrictForm {
    binarised: BinarisedRules,
    nullable: Nullable,
    chains: Chains,
    strict: StrictRules,
}

impl StrictForm {
    // The number of symbols: 64 and the tails.
    pub fn symbols(&self) -> usize
        ensures is { result ≡ self.now.binarised.symbols }
        ensures least { 64 ≤ result }
        ensures most { result ≤ 128 }
    {
        self.binarised.symbols
    }

    // The strict rules in their order.
    pub fn strict(&self) -> &[StrictRule]
        ensures { result.now ≡ self.now.strict.rules.items }
    {
        self.strict.rules.as_slice()
    }

    // Whether the strict rules found room.
    pub fn complete(&self) -> bool
        ensures { result ≡ self.now.strict.complete }
    {
        self.strict.complete
    }

    // What brought a symbol in, if it is nullable.
    pub fn brought(&self, symbol: u8) -> Option<Brought>
        ensures { result ≡ slice_index_or self.now.nullable.brought symbol None }
    {
        self.nullable.get(symbol)
    }

    // The chosen chain from one symbol to another, if one leads there.
    pub fn chain(&self, from: u8, to: u8) -> Option<Chain>
        ensures { result ≡ slice_index_or (slice_index_or self.now.chains.links from []) to None }
    {
        self.chains.get(from, to)
    }
}

// The strict form of productions over so many patterns.
pub fn convert(productions: &[Production], patterns: u8) -> StrictForm
    requires { Sound (rows_book productions.now patterns) }
    ensures { FormOf (rows_book productions.now patterns) result }
{
    let binarised = binarise(productions, patterns);
    let nullable = nullable(&binarised);
    let chains = chains(&binarised, &nullable);
    let strict = StrictRules::all(&binarised, &chains);
    StrictForm {
        binarised,
        nullable,
        chains,
        strict,
    }
}
