// What a token may stand for in a line.
ghost use Rattle.std.specs.Prelude.{◌≡◌, ◌<◌, ◌≤◌, true, cond, [], ◌∷◌, length, drop, IfSome, MatchOption, nat_lt};
ghost use Rattle.std.specs.List.{list_all};
ghost use Rattle.text.specs.Kinds.{place_of, kind_of, Sound};
ghost use Rattle.text.specs.Numbers.{said_number, is_digit};
ghost use Rattle.text.specs.Outcomes.{refusal_of, head_of, item_of, cost_of, is_arrow, is_blank, fault, fault_said, token_piece};
ghost use Rattle.text.specs.Turns.{words_left};

use crate::digits::number;
use crate::fault::LineFault;
use crate::lexer::classify;
use crate::token::Token;
use crate::words::Words;

// The largest number of a head and of a pattern.
const SYMBOLS: u32 = 31;

// The largest cost.
const COSTS: u32 = 65535;

// The next word with its kind.
pub(crate) fn next_token<'t>(words: &mut Words<'t>) -> Option<Token<'t>>
    ensures { MatchOption result (words_left words.old ≡ []) (λ t. (words_left words.old ≡ token_piece t ∷ words_left words.new) × Sound t) }
{
    let word = words.next()?;
    Some(classify(word.bytes, word.place))
}

// The number after a word's letter, or nothing where it is over a limit.
fn lettered_number(word: &[u8], limit: u32) -> Option<u32>
    requires { (0 < length word.now) × (list_all is_digit (drop 1 word.now) ≡ true) }
    ensures { MatchOption result (limit < said_number (drop 1 word.now)) (λ n. (n ≡ said_number (drop 1 word.now)) × (n ≤ limit)) }
{
    number(&word[1..], limit)
}

// The refusal of a word with a number that may not stand where it does: over its limit, or else out of place.
fn lettered_refusal(word: &[u8], at: usize, limit: u32) -> LineFault
    requires { (0 < length word.now) × (list_all is_digit (drop 1 word.now) ≡ true) }
    ensures { fault_said result ≡ fault (cond (nat_lt limit (said_number (drop 1 word.now))) 21 22) at }
{
    match lettered_number(word, limit) {
        Some(_) => LineFault::OutOfPlace(at),
        None => LineFault::OverLimit(at),
    }
}

// The refusal of a word that may not stand where it does.
pub(crate) fn misplaced(token: Token<'_>) -> LineFault
    requires { Sound token }
    ensures { fault_said result ≡ fault (refusal_of (kind_of token.entry)) (place_of token.entry) }
{
    match token {
        Token::Arrow(_, at) | Token::Blank(_, at) => LineFault::OutOfPlace(at),
        // a head and a pattern have limits of their own, which are the same number
        Token::Head(word, at) => lettered_refusal(word, at, SYMBOLS),
        Token::Pattern(word, at) => lettered_refusal(word, at, SYMBOLS),
        Token::Cost(word, at) => lettered_refusal(word, at, COSTS),
        Token::Unknown(_, at) => LineFault::Unknown(at),
    }
}

// Whether a word is an arrow.
pub(crate) fn is_arrow(token: Token<'_>) -> bool
    ensures { result ≡ is_arrow (kind_of token.entry) }
{
    matches!(token, Token::Arrow(..))
}

// Whether a word is blank.
pub(crate) fn is_blank(token: Token<'_>) -> bool
    ensures { result ≡ is_blank (kind_of token.entry) }
{
    matches!(token, Token::Blank(..))
}

// The head that a word names, within its limit.
pub(crate) fn head_of(token: Token<'_>) -> Option<u8>
    requires { Sound token }
    ensures is { result ≡ head_of (kind_of token.entry) }
    ensures low { IfSome result (λ h. h ≤ 31) }
{
    match token {
        Token::Head(word, _) => lettered_number(word, SYMBOLS).map(|n| n as u8),
        _ => None,
    }
}

// The item that a word names, within its limit: head h is h, pattern t is 32 + t.
pub(crate) fn item_of(token: Token<'_>) -> Option<u8>
    requires { Sound token }
    ensures is { result ≡ item_of (kind_of token.entry) }
    ensures low { IfSome result (λ i. i < 64) }
{
    match token {
        Token::Head(word, _) => lettered_number(word, SYMBOLS).map(|n| n as u8),
        Token::Pattern(word, _) => lettered_number(word, SYMBOLS).map(|n| 32 + n as u8),
        _ => None,
    }
}

// The cost that a word says, within its limit.
pub(crate) fn cost_of(token: Token<'_>) -> Option<u16>
    requires { Sound token }
    ensures { result ≡ cost_of (kind_of token.entry) }
{
    match token {
        Token::Cost(word, _) => lettered_number(word, COSTS).map(|n| n as u16),
        _ => None,
    }
}
