ghost use Rattle.std.specs.Prelude.{◌≡◌, ℕ, ◌+◌, ◌-◌, ◌<◌, ◌≤◌, true, false, not, [], ◌∷◌, length, drop, MatchOption, IfSome, slice_index};
ghost use Rattle.std.specs.List.{prefix_len};
ghost use Rattle.std.specs.Iterator.{at_most, YieldsFirstBy};
ghost use Rattle.text.specs.Words.{ends_line, parts, words, IsWord, IsLineEnd};
ghost use Rattle.text.specs.Turns.{piece_of, words_left};

// A word and its byte place in the text.
#[derive(Clone, Copy)]
pub struct Word<'a> {
    pub bytes: &'a [u8],
    pub place: usize,
}

// The words of a text that are still to come: those that begin from a place on.
#[derive(Clone, Copy)]
pub struct Words<'t> {
    text: &'t [u8],
    from: usize,
}

impl<'t> Words<'t> {
    // The words of a text from a place on.
    pub fn of(text: &'t [u8], from: usize) -> Words<'t>
        ensures text { result.text.now ≡ text.now }
        ensures from { result.from ≡ from }
    {
        Words { text, from }
    }
}

impl<'t> Iterator for Words<'t> {
    type Item = Word<'t>;

    ghost next_gives = { YieldsFirstBy piece_of words_left };

    ghost remaining = { λ s. at_most (length s.text.now - s.from) };

    fn next(&mut self) -> Option<Word<'t>> {
        let word = next_word(self.text, self.from)?;
        self.from = word.place + word.bytes.len();
        Some(word)
    }
}

// Whether a byte parts words: a space or a line feed.
fn is_gap(b: u8) -> bool
    ensures { result ≡ parts b }
{
    b == b' ' || b == b'\n'
}

// These chains differ in their test alone, which one function with a closure for it would only hand on to the library.

// How many bytes at the front part words.
fn gap_len(bytes: &[u8]) -> usize
    ensures { result ≡ prefix_len parts bytes.now }
{
    bytes.iter().take_while(|b| is_gap(**b)).count()
}

// How many bytes at the front part no words.
fn word_len(bytes: &[u8]) -> usize
    ensures { result ≡ prefix_len (λ b. not (parts b)) bytes.now }
{
    bytes.iter().take_while(|b| !is_gap(**b)).count()
}

// Where the line that holds a place ends: its line feed, or the end of the text. A loop over places, and no chain of the library as above:
// with one, a load of many empty lines took twice as long.
pub fn line_end(text: &[u8], from: usize) -> usize
    ensures { IsLineEnd text.now from result }
{
    for i in from..text.len() {
        if text[i] == b'\n' {
            return i;
        }
    }
    text.len()
}

// The first place from a place on whose byte parts no words, or the end of the text.
fn word_start(text: &[u8], from: usize) -> usize
    requires { from ≤ length text.now }
    ensures within { (from ≤ result) × (result ≤ length text.now) }
    ensures before { (k : ℕ) → from ≤ k → k < result → parts (slice_index text.now k) ≡ true }
    ensures found { result < length text.now → parts (slice_index text.now result) ≡ false }
{
    from + gap_len(&text[from..])
}

// The first place from a place on whose byte parts words, or the end of the text.
fn word_end(text: &[u8], from: usize) -> usize
    requires { from ≤ length text.now }
    ensures within { (from ≤ result) × (result ≤ length text.now) }
    ensures before { (k : ℕ) → from ≤ k → k < result → parts (slice_index text.now k) ≡ false }
    ensures found { result < length text.now → parts (slice_index text.now result) ≡ true }
{
    from + word_len(&text[from..])
}

// The first word from a place on.
pub fn next_word(text: &[u8], from: usize) -> Option<Word<'_>>
    ensures found { MatchOption result ((k : ℕ) → from ≤ k → k < length text.now → parts (slice_index text.now k) ≡ true) (λ w. IsWord text.now from w.place w.bytes.now) }
    ensures is { MatchOption result (words from (drop from text.now) ≡ []) (λ w. words from (drop from text.now) ≡ piece_of w ∷ words (w.place + length w.bytes.now) (drop (w.place + length w.bytes.now) text.now)) }
    ensures past { IfSome result (λ w. (from < w.place + length w.bytes.now) × (w.place + length w.bytes.now ≤ length text.now)) }
{
    if from >= text.len() {
        return None;
    }
    let place = word_start(text, from);
    if place == text.len() {
        return None;
    }
    let past = word_end(text, place);
    Some(Word {
        bytes: &text[place..past],
        place,
    })
}
