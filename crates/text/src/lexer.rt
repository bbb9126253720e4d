ghost use Rattle.std.specs.Prelude.{◌≡◌};
ghost use Rattle.text.specs.Kinds.{kind, word_of, place_of, kind_of, Sound};

use crate::digits::is_numeral;
use crate::token::Token;

// A word and its place with the kind of the word.
pub fn classify(word: &[u8], at: usize) -> Token<'_>
    ensures word { word_of result ≡ word.now }
    ensures place { place_of result ≡ at }
    ensures sound { Sound result }
    ensures is { kind_of result ≡ kind word.now }
{
    match word {
        b"->" => Token::Arrow(word, at),
        b"blank" => Token::Blank(word, at),
        [b'H', digits @ ..] if is_numeral(digits) => Token::Head(word, at),
        [b'P', digits @ ..] if is_numeral(digits) => Token::Pattern(word, at),
        [b'#', digits @ ..] if is_numeral(digits) => Token::Cost(word, at),
        _ => Token::Unknown(word, at),
    }
}
