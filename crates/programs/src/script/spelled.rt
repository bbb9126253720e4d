// How a script writes an alphabet: the lines of its patterns, and its events.
ghost use Rattle.std.specs.Prelude.{◌≡◌};
ghost use Rattle.programs.specs.Spelling.{texts_left, card_pattern};

use crate::script::words::{next_number, next_word, only};
use book::alphabet::{Alphabet, Bytes, Cards};
use book::kinds::{CardEvent, CardPattern};
use std::alloc::{AllocError, Global};
use text::words::Words;

pub(crate) trait Spelled: Alphabet {
    ghost use Rattle.std.specs.Prelude.{◌≡◌, IfOk, option_map};
    ghost use Rattle.programs.specs.Spelling.{Spelling, texts_left};

    // the words for its patterns and events
    ghost spelling: { Spelling Self.Pattern Self.Event };

    // The word that a line of patterns begins with.
    fn name() -> &'static [u8]
        ensures { result.now ≡ spelling.name };

    // The patterns that the words after it say, if they say patterns.
    fn patterns(heap: Global, words: Words<'_>) -> Result<Option<Vec<Self::Pattern>>, AllocError>
        ensures { IfOk result (λ o. option_map (λ v. v.items) o ≡ spelling.patterns (texts_left words.entry)) };

    // The event that words say, if they say one.
    fn event(words: Words<'_>) -> Option<Self::Event>
        ensures { result ≡ spelling.event (texts_left words.entry) };
}

impl Spelled for Bytes {
    ghost use Rattle.programs.specs.Spelling.{bytes_spelling};

    ghost spelling = { bytes_spelling };

    fn name() -> &'static [u8] {
        b"bytes"
    }

    // Each byte of each word is a pattern.
    fn patterns(heap: Global, words: Words<'_>) -> Result<Option<Vec<u8>>, AllocError> {
        let mut patterns = Vec::new(heap);
        let mut words = words;
        while let Some(word) = next_word(&mut words) {
            patterns.extend_from_slice(word)?;
        }
        Ok(Some(patterns))
    }

    // A word of one byte.
    fn event(words: Words<'_>) -> Option<u8> {
        let mut words = words;
        match next_word(&mut words)? {
            [b] => only(*b, words),
            _ => None,
        }
    }
}

// The card pattern that words say: its kind, its lowest and its highest argument.
fn card_pattern(words: Words<'_>) -> Option<CardPattern>
    ensures { result ≡ card_pattern (texts_left words.entry) }
{
    let mut words = words;
    let kind = next_number(&mut words, 255)? as u8;
    let lowest = next_number(&mut words, u32::MAX)?;
    let highest = next_number(&mut words, u32::MAX)?;
    let pattern = CardPattern {
        kind,
        lowest,
        highest,
    };
    only(pattern, words)
}

impl Spelled for Cards {
    ghost use Rattle.programs.specs.Spelling.{cards_spelling};

    ghost spelling = { cards_spelling };

    fn name() -> &'static [u8] {
        b"cards"
    }

    // Three words are a pattern; no word is none.
    fn patterns(heap: Global, words: Words<'_>) -> Result<Option<Vec<CardPattern>>, AllocError> {
        let mut patterns = Vec::new(heap);
        let mut rest = words;
        if next_word(&mut rest).is_some() {
            let Some(pattern) = card_pattern(words) else {
                return Ok(None);
            };
            patterns.push(pattern)?;
        }
        Ok(Some(patterns))
    }

    // Its kind and its argument.
    fn event(words: Words<'_>) -> Option<CardEvent> {
        let mut words = words;
        let kind = next_number(&mut words, 255)? as u8;
        let argument = next_number(&mut words, u32::MAX)?;
        only(CardEvent { kind, argument }, words)
    }
}
