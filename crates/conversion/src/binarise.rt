// Binarised rules from productions.
ghost use Rattle.std.specs.Prelude.{◌≡◌, ◌+◌, ◌<◌, ◌≤◌, [], ◌∷◌, ◌++◌, length};
ghost use Rattle.arrayvec.specs.ArrayVec.{array_vec_len};
ghost use Rattle.grammar.specs.Productions.{Sound, tails};
ghost use Rattle.grammar.specs.Binarised.{rule};
ghost use Rattle.grammar.specs.Binarise.{binarise_right, binarised, one_item};
ghost use Rattle.conversion.specs.Rows.{production_of};
ghost use Rattle.conversion.specs.Binarised.{rows_book, grammar_of};
ghost use Rattle.conversion.specs.Views.{right_side_of};

use crate::binarised::BinarisedRules;
use crate::production::Production;
use crate::right::{BinarisedRule, Right};
use arrayvec::ArrayVec;

impl BinarisedRules {
    // One rule more at the end.
    fn push(&mut self, left: u8, number: u8, right: Right)
        requires room { array_vec_len self.old.rules < 160 }
        requires bounded { left < self.old.symbols }
        ensures rules { (grammar_of self.new).rules ≡ (grammar_of self.old).rules ++ (rule left number (right_side_of right) ∷ []) }
        ensures symbols { self.new.symbols ≡ self.old.symbols }
    {
        self.rules.push(BinarisedRule {
            left,
            number,
            right,
        });
    }

    // The next tail.
    fn tail(&mut self) -> u8
        requires { self.old.symbols < 128 }
        ensures is { result ≡ self.old.symbols }
        ensures symbols { self.new.symbols ≡ self.old.symbols + 1 }
        ensures rules { self.new.rules ≡ self.old.rules }
    {
        let tail = self.symbols;
        self.symbols = tail + 1;
        tail as u8
    }

    // The rules of a right side of two items or more: each pair is an item and the tail that stands for the items after it, the
    // last one the last two items. These two by their places: what is promised is said of one list of items.
    fn pairs(&mut self, head: u8, number: u8, items: &[u8])
        requires several { 2 ≤ length items.now }
        requires room { array_vec_len self.old.rules + tails items.now < 160 }
        requires tails { self.old.symbols + tails items.now ≤ 128 }
        requires head { head < 64 }
        ensures rules { (grammar_of self.new).rules ≡ (grammar_of self.old).rules ++ binarise_right head number self.old.symbols items.now }
        ensures symbols { self.new.symbols ≡ self.old.symbols + tails items.now }
    {
        let last = items.len() - 2;
        let mut left = head;
        for item in &items[..last] {
            let tail = self.tail();
            self.push(left, number, Right::Binary(*item, tail));
            left = tail;
        }
        self.push(left, number, Right::Binary(items[last], items[last + 1]));
    }

    // The rules of one production.
    fn production(&mut self, number: u8, production: &Production)
        requires room { array_vec_len self.old.rules + tails (production_of production.now).right < 160 }
        requires tails { self.old.symbols + tails (production_of production.now).right ≤ 128 }
        requires head { (production_of production.now).head < 64 }
        ensures rules { (grammar_of self.new).rules ≡ (grammar_of self.old).rules ++ binarise_right (production_of production.now).head number self.old.symbols (production_of production.now).right }
        ensures symbols { self.new.symbols ≡ self.old.symbols + tails (production_of production.now).right }
    {
        let items = production.right();
        match items {
            [] => self.push(production.head(), number, Right::Empty),
            [item] => self.push(production.head(), number, single(*item)),
            _ => self.pairs(production.head(), number, items),
        }
    }
}

// The right side of one item: a head's symbol, or a pattern. A function and no From, since only some bytes are items.
fn single(item: u8) -> Right
    ensures { right_side_of result ≡ one_item item }
{
    if item < 32 {
        Right::Unit(item)
    } else {
        Right::Terminal(item - 32)
    }
}

// The binarised rules of productions, by production and then by place, and after them one rule for each pattern's own symbol.
pub(crate) fn binarise(productions: &[Production], patterns: u8) -> BinarisedRules
    requires { Sound (rows_book productions.now patterns) }
    ensures { grammar_of result ≡ binarised (rows_book productions.now patterns) }
{
    let mut out = BinarisedRules {
        rules: ArrayVec::new(),
        symbols: 64,
    };
    for (n, production) in productions.iter().enumerate() {
        out.production(n as u8, production);
    }
    for t in 0..patterns {
        // the format numbers this rule 255
        out.push(32 + t, 255, Right::Terminal(t));
    }
    out
}
