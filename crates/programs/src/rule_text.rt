// A production as a line of rule text.
ghost use Rattle.std.specs.Prelude.{◌≡◌, ℕ, ◌≤◌, List, [], ◌∷◌, ◌++◌, map, IfOk, string_bytes, decimal};
ghost use Rattle.grammar.specs.Lists.{each};
ghost use Rattle.grammar.specs.Productions.{Production as Written};
ghost use Rattle.conversion.specs.Rows.{production_of};
ghost use Rattle.text.specs.Outcomes.{item_kind, right_kinds, word_text, line_text};
ghost use Rattle.book.specs.Offers.{refusal};
ghost use Rattle.book.specs.Loads.{load, taken};

use conversion::production::Production;
use std::alloc::{AllocError, Global};

// An item, with a space before it.
fn push_item(out: &mut String, item: u8) -> Result<(), AllocError>
    ensures { IfOk result (λ _. string_bytes out.new ≡ string_bytes out.old ++ (32 ∷ word_text (item_kind item))) }
{
    if item < 32 {
        write!(out, " H{item}")
    } else {
        write!(out, " P{}", item - 32)
    }
}

// A right side, with a space before each word.
fn push_right(out: &mut String, items: &[u8]) -> Result<(), AllocError>
    ensures { IfOk result (λ _. string_bytes out.new ≡ string_bytes out.old ++ each (λ (v : List ℕ). 32 ∷ v) (map word_text (right_kinds items.now))) }
{
    if items.is_empty() {
        return write!(out, " blank");
    }
    for item in items {
        push_item(out, *item)?;
    }
    Ok(())
}

// A production as a line, its cost the last word. Loaded into a book that would admit it, the line adds just that production.
pub fn rule_text(heap: Global, rule: &Production) -> Result<String, AllocError>
    ensures line { IfOk result (λ s. string_bytes s ≡ line_text (production_of rule.now)) }
    ensures loads { IfOk result (λ s. (T : ℕ) (rules : List Written) → T ≤ 32 → refusal T rules (production_of rule.now) ≡ 0 → load T rules (string_bytes s) ≡ taken (rules ++ (production_of rule.now ∷ [])) 1) }
{
    let mut out = format!(in heap; "H{} ->", rule.head())?;
    push_right(&mut out, rule.right())?;
    write!(out, " #{}", rule.cost())?;
    Ok(out)
}
