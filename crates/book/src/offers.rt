// A rule is offered to the rules held.
ghost use Rattle.std.specs.Prelude.{◌≡◌, ◌+◌, ◌≤◌, [], map, length, MatchResult, nat_le};
ghost use Rattle.grammar.specs.Lists.{some_of};
ghost use Rattle.grammar.specs.Productions.{all_tails, right_of, Sound};
ghost use Rattle.conversion.specs.Rows.{production_of, written};
ghost use Rattle.conversion.specs.Binarised.{rows_book};
ghost use Rattle.conversion.specs.Forms.{FormOf};
ghost use Rattle.book.specs.Rules.{held, rules_book, cost_of};
ghost use Rattle.book.specs.Offers.{same_rule, size_refusal, Offered};
ghost use Rattle.book.specs.Faults.{offer_number};

use crate::converted::Converted;
use crate::fault::OfferFault;
use crate::rules::Rules;
use arrayvec::ArrayVec;
use conversion::form::convert;
use conversion::production::Production;
use conversion::productions::all_tails;

// Heads are below this.
const HEADS: u8 = 32;

// So many rules a book holds at most.
const RULES: usize = 64;

// So many tails its rules take at most.
const TAILS: usize = 64;

// Whether some item is neither a head nor a pattern.
fn some_unknown(items: &[u8], patterns: u8) -> bool
    requires { patterns ≤ 32 }
    ensures { result ≡ some_of (nat_le (32 + patterns)) items.now }
{
    items.iter().any(|item| *item >= 32 + patterns)
}

// Whether two rules have the same head and right side. That is not equality of productions, which have costs too.
fn same(a: &Production, b: &Production) -> bool
    ensures { result ≡ same_rule (production_of a.now) (production_of b.now) }
{
    a.head() == b.head() && a.right() == b.right()
}

// Whether some rule has the same head and right side.
fn some_same(rule: &Production, rules: &[Production]) -> bool
    ensures { result ≡ some_of (same_rule (production_of rule.now)) (map production_of rules.now) }
{
    rules.iter().any(|other| same(rule, other))
}

// Refuses rules that take too many tails or strict rules; they keep to the other bounds.
fn check_size(rules: &[Production], patterns: u8) -> Result<(), OfferFault>
    requires few { length rules.now ≤ 64 }
    requires sound { all_tails (map production_of rules.now) ≤ 64 → Sound (rows_book rules.now patterns) }
    ensures { MatchResult result (λ _. size_refusal (rows_book rules.now patterns) ≡ 0) (λ f. size_refusal (rows_book rules.now patterns) ≡ offer_number f) }
{
    if all_tails(rules) > TAILS {
        return Err(OfferFault::TooManyTails);
    }
    if !convert(rules, patterns).complete() {
        return Err(OfferFault::TooManyStrictRules);
    }
    Ok(())
}

impl Rules {
    // No rule, over so many patterns.
    pub(crate) fn none(patterns: u8) -> Rules
        requires { patterns ≤ 32 }
        ensures none { held result ≡ [] }
        ensures over { result.patterns ≡ patterns }
    {
        Rules {
            rows: ArrayVec::new(),
            patterns,
        }
    }

    // Offers a rule, which is admitted at the end or refused.
    pub(crate) fn offer(&mut self, head: u8, items: &[u8], cost: u16) -> Result<usize, OfferFault>
        ensures says { Offered self.old.patterns held (written head items.now cost) self.old self.new result }
        ensures over { self.new.patterns ≡ self.old.patterns }
    {
        if head >= HEADS {
            return Err(OfferFault::HeadTooLarge);
        }
        let rule = Production::new(head, items, cost).ok_or(OfferFault::TooManyItems)?;
        if some_unknown(items, self.patterns) {
            return Err(OfferFault::UnknownItem);
        }
        if some_same(&rule, &self.rows) {
            return Err(OfferFault::Repeated);
        }
        let at = self.rows.len();
        if at >= RULES {
            return Err(OfferFault::BookFull);
        }
        self.rows.push(rule);
        if let Err(fault) = check_size(&self.rows, self.patterns) {
            self.rows.pop();
            return Err(fault);
        }
        Ok(at)
    }

    // The rules held with their strict form.
    pub(crate) fn convert(self) -> Converted
        ensures rules { result.rules ≡ self }
        ensures formed { FormOf (rules_book result.rules) result.form }
    {
        let form = convert(&self.rows, self.patterns);
        Converted { rules: self, form }
    }

    // The cost of a rule, or 0 where there is none of that number: no Option, since a rule that is asked for is there.
    pub fn cost(&self, number: u8) -> u16
        ensures { result ≡ cost_of (held self.now) number }
    {
        self.rows.get(number as usize).map_or(0, |rule| rule.cost())
    }

    // The right side of a rule, or no item where there is none of that number: as for the cost, no Option.
    pub fn right(&self, number: u8) -> &[u8]
        ensures { result.now ≡ right_of (rules_book self.now) number }
    {
        let place = number as usize;
        match self.rows.get(place) {
            Some(rule) => rule.right(),
            None => &[],
        }
    }
}
