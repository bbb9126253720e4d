// The words of a script's line, one by one, and the numbers that they say.
ghost use Rattle.std.specs.Prelude.{◌≡◌, ◌≤◌, ◌∷◌, [], Some, None, IfOk, IfSome, MatchOption, option_map};
ghost use Rattle.text.specs.Numbers.{all_digits};
ghost use Rattle.programs.specs.Spelling.{texts_left, number_said, first_number, numbers_said, only};

use std::alloc::{AllocError, Global};
use text::digits;
use text::words::Words;

// Whether every byte is a digit.
fn all_digits(word: &[u8]) -> bool
    ensures { result ≡ all_digits word.now }
{
    word.iter().all(|b| b.is_ascii_digit())
}

// The number that a word of digits says, unless it is over the limit.
pub(crate) fn number(word: &[u8], limit: u32) -> Option<u32>
    ensures said { result ≡ number_said limit word.now }
    ensures within { IfSome result (λ n. n ≤ limit) }
{
    if !all_digits(word) {
        return None;
    }
    digits::number(word, limit)
}

// The bytes of the next word.
pub(crate) fn next_word<'t>(words: &mut Words<'t>) -> Option<&'t [u8]>
    ensures { MatchOption result (texts_left words.old ≡ []) (λ w. texts_left words.old ≡ w.now ∷ texts_left words.new) }
{
    Some(words.next()?.bytes)
}

// The number that the next word says.
pub(crate) fn next_number(words: &mut Words<'_>, limit: u32) -> Option<u32>
    ensures said { MatchOption result (first_number limit (texts_left words.old) ≡ None) (λ n. first_number limit (texts_left words.old) ≡ Some (n, texts_left words.new)) }
    ensures within { IfSome result (λ n. n ≤ limit) }
{
    number(next_word(words)?, limit)
}

// The value, where no word is left.
pub(crate) fn only<T: Drop>(value: T, words: Words<'_>) -> Option<T>
    ensures { result ≡ only value (texts_left words.entry) }
{
    let mut words = words;
    match next_word(&mut words) {
        Some(_) => None,
        None => Some(value),
    }
}

// The numbers that words say, each of 8 bits.
pub(crate) fn bytes(heap: Global, words: Words<'_>) -> Result<Option<Vec<u8>>, AllocError>
    ensures { IfOk result (λ o. option_map (λ v. v.items) o ≡ numbers_said 255 (texts_left words.entry)) }
{
    let mut bytes = Vec::new(heap);
    let mut words = words;
    while let Some(word) = next_word(&mut words) {
        let Some(byte) = number(word, 255) else {
            return Ok(None);
        };
        bytes.push(byte as u8)?;
    }
    Ok(Some(bytes))
}
