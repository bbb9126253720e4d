// Rules together with their strict form.
ghost use Rattle.std.specs.Prelude.{◌≡◌, ◌<◌, ◌≤◌, ◌⊎◌, None, map};
ghost use Rattle.grammar.specs.Binarise.{binarised};
ghost use Rattle.grammar.specs.Strict.{strict_rules};
ghost use Rattle.conversion.specs.Forms.{FormOf};
ghost use Rattle.conversion.specs.Held.{BroughtIn};
ghost use Rattle.conversion.specs.Linked.{Chosen};
ghost use Rattle.conversion.specs.Views.{strict_rule_of};
ghost use Rattle.book.specs.Rules.{rules_book};

use crate::rules::Rules;
use conversion::chain::Chain;
use conversion::form::StrictForm;
use conversion::nullable::Brought;
use conversion::strict::StrictRule;

// The rules held, and the strict form of just these.
#[derive(Drop)]
pub struct Converted {
    pub(crate) rules: Rules,
    pub(crate) form: StrictForm,
    ghost formed: { ∥ FormOf (rules_book rules) form ∥₁ },
}

impl Converted {
    // The rules.
    pub fn rules(&self) -> &Rules
        ensures { result.now ≡ self.now.rules }
    {
        &self.rules
    }

    // Their strict form.
    pub fn form(&self) -> &StrictForm
        ensures { result.now ≡ self.now.form }
    {
        &self.form
    }

    // The number of symbols.
    pub fn symbols(&self) -> usize
        ensures is { result ≡ self.now.form.binarised.symbols }
        ensures means { result ≡ (binarised (rules_book self.now.rules)).symbols }
        ensures least { 64 ≤ result }
        ensures most { result ≤ 128 }
    {
        self.form.symbols()
    }

    // The strict rules in their order: all of them, since they fit.
    pub fn strict(&self) -> &[StrictRule]
        ensures { map strict_rule_of result.now ≡ strict_rules (binarised (rules_book self.now.rules)) }
    {
        self.form.strict()
    }

    // What brought a symbol in, if it is nullable.
    pub fn brought(&self, symbol: u8) -> Option<Brought>
        ensures { BroughtIn (binarised (rules_book self.now.rules)) symbol result }
    {
        self.form.brought(symbol)
    }

    // The chosen chain from one symbol to another, if one leads there. There are no symbols from 128 on.
    pub fn chain(&self, from: u8, to: u8) -> Option<Chain>
        ensures means { from < 128 → to < 128 → Chosen (binarised (rules_book self.now.rules)) from to result }
        ensures beyond { (128 ≤ from) ⊎ (128 ≤ to) → result ≡ None }
    {
        self.form.chain(from, to)
    }
}
