// Reads the words of a line part by part, as the law of a line has them: the head, the arrow, the right side, at most a cost.
ghost use Rattle.std.specs.Prelude.{◌≡◌, ◌≤◌, [], ◌∷◌, length, take, drop};
ghost use Rattle.text.specs.Kinds.{Sound};
ghost use Rattle.text.specs.Outcomes.{rule, no_more, cost_part, item_part, right_part, arrow_part, line, production_said, said, line_said, in_nine, token_piece, Limits};
ghost use Rattle.text.specs.Turns.{words_left};
ghost use Rattle.text.specs.Words.{words};

use crate::fault::LineFault;
use crate::rule_line::RuleLine;
use crate::token::Token;
use crate::tokens::{cost_of, head_of, is_arrow, is_blank, item_of, misplaced, next_token};
use crate::words::Words;

// Behind the cost: no word.
fn no_more(line: RuleLine, words: Words<'_>) -> Result<RuleLine, LineFault>
    ensures { said result ≡ no_more (rule (production_said line)) (words_left words.entry) }
{
    let mut words = words;
    match next_token(&mut words) {
        Some(token) => Err(misplaced(token)),
        None => Ok(line),
    }
}

// Behind the right side: a word, which must be a cost, and no other.
fn cost_word(line: RuleLine, token: Token<'_>, words: Words<'_>) -> Result<RuleLine, LineFault>
    requires { Sound token }
    ensures { said result ≡ cost_part line.head (take line.len line.items) (token_piece token.entry ∷ words_left words.entry) }
{
    let cost = cost_of(token).ok_or(misplaced(token))?;
    no_more(line.with_cost(cost), words)
}

// Behind the right side: at most a cost.
fn cost_part(line: RuleLine, words: Words<'_>) -> Result<RuleLine, LineFault>
    requires { line.cost ≡ 0 }
    ensures { said result ≡ cost_part line.head (take line.len line.items) (words_left words.entry) }
{
    let mut words = words;
    match next_token(&mut words) {
        Some(token) => cost_word(line, token, words),
        None => Ok(line),
    }
}

// Behind an item: further items, then at most a cost.
fn item_part(line: RuleLine, words: Words<'_>) -> Result<RuleLine, LineFault>
    requires { line.cost ≡ 0 }
    ensures { said result ≡ in_nine (item_part line.head (take line.len line.items) (words_left words.entry)) }
{
    let mut line = line;
    let mut words = words;
    while let Some(token) = next_token(&mut words) {
        match item_of(token) {
            Some(item) => line = line.with_item(item),
            None => return cost_word(line, token, words),
        }
    }
    Ok(line)
}

// Behind the arrow, in a line that ends at a place: blank or an item.
fn right_part(head: u8, words: Words<'_>, end: usize) -> Result<RuleLine, LineFault>
    requires { head ≤ 31 }
    ensures { said result ≡ in_nine (right_part end head (words_left words.entry)) }
{
    let mut words = words;
    let token = next_token(&mut words).ok_or(LineFault::TooShort(end))?;
    let line = RuleLine::of(head);
    if is_blank(token) {
        return cost_part(line, words);
    }
    let item = item_of(token).ok_or(misplaced(token))?;
    item_part(line.with_item(item), words)
}

// Behind the head, in a line that ends at a place: the arrow.
fn arrow_part(head: u8, words: Words<'_>, end: usize) -> Result<RuleLine, LineFault>
    requires { head ≤ 31 }
    ensures { said result ≡ in_nine (arrow_part end head (words_left words.entry)) }
{
    let mut words = words;
    let token = next_token(&mut words).ok_or(LineFault::TooShort(end))?;
    if !is_arrow(token) {
        return Err(misplaced(token));
    }
    right_part(head, words, end)
}

// The rule that the words from a place to the end of the text say, or none where there is no word.
pub fn rule_line(text: &[u8], from: usize) -> Result<Option<RuleLine>, LineFault>
    ensures limits { Limits (length text.now) result }
    ensures means { line_said result ≡ in_nine (line (length text.now) (words from (drop from text.now))) }
{
    let mut words = Words::of(text, from);
    let Some(token) = next_token(&mut words) else {
        return Ok(None);
    };
    let head = head_of(token).ok_or(misplaced(token))?;
    let line = arrow_part(head, words, text.len())?;
    Ok(Some(line))
}
