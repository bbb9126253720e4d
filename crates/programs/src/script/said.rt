// What one line of a script says.
ghost use Rattle.std.specs.Prelude.{◌≡◌, IfOk, option_map, drop, ok_or};
ghost use Rattle.grammar.specs.Lists.{same_numbers};
ghost use Rattle.text.specs.Turns.{words_left};
ghost use Rattle.programs.specs.Said.{book_line};
ghost use Rattle.programs.specs.ScriptSaid.{item_of, LineGives};
ghost use Rattle.programs.specs.Spelling.{texts_left};
ghost use Rattle.programs.specs.ScriptLines.{first_of, one_number, offer_said, load_said, item_said, line_said};

use crate::script::fault::{Cause, ScriptFault};
use crate::script::lines::{BookLine, ChartLine, Question};
use crate::script::spelled::Spelled;
use crate::script::words::{bytes, next_number, only};
use replay::call::ChartCall;
use std::alloc::{AllocError, Global};
use text::lines::Line;
use text::words::Words;

// The longest table of weights: of 128 symbols and 256 events.
pub const WEIGHTS: u32 = 4_210_688;

// The longest table of nodes: one more than are ever written.
pub const NODES: u32 = 65_536;

// What a line says.
#[derive(Drop)]
pub(crate) enum Said<'t, P, E> {
    Patterns(Vec<P>),
    Call(BookLine<'t>),
    // a load whose rules are the lines that follow
    Rules,
    Weights(usize),
    Nodes(usize),
    Chart(ChartLine<E>),
}

// What a line begins with.
#[derive(Clone, Copy)]
pub(crate) enum First {
    Patterns,
    Offer,
    Load,
    Strike,
    Weights,
    Nodes,
    Feed,
    Withdraw,
    Total,
    Reading,
}

// Whether two texts are the same.
pub(crate) fn same(word: &[u8], text: &[u8]) -> bool
    ensures { result ≡ same_numbers word.now text.now }
{
    word == text
}

// What a line that begins with this word is, where lines of patterns begin with a name.
#[tactic(auto, unfolding(crate::specs::ScriptLines::first_of))]
fn first_of(name: &[u8], word: &[u8]) -> Option<First>
    ensures { result ≡ first_of name.now word.now }
{
    if same(word, name) {
        return Some(First::Patterns);
    }
    if same(word, b"offer") {
        return Some(First::Offer);
    }
    if same(word, b"load") {
        return Some(First::Load);
    }
    if same(word, b"strike") {
        return Some(First::Strike);
    }
    if same(word, b"weights") {
        return Some(First::Weights);
    }
    if same(word, b"nodes") {
        return Some(First::Nodes);
    }
    if same(word, b"feed") {
        return Some(First::Feed);
    }
    if same(word, b"withdraw") {
        return Some(First::Withdraw);
    }
    if same(word, b"total") {
        return Some(First::Total);
    }
    if same(word, b"reading") {
        return Some(First::Reading);
    }
    None
}

// The one number that words say.
fn one_number(words: Words<'_>, limit: u32) -> Option<usize>
    ensures { result ≡ one_number limit (texts_left words.entry) }
{
    let mut words = words;
    let number = next_number(&mut words, limit)?;
    only(number as usize, words)
}

// The offer that words say: a head, a cost and items.
fn offer<'t>(heap: Global, words: Words<'_>) -> Result<Option<BookLine<'t>>, AllocError>
    ensures { IfOk result (λ o. option_map book_line o ≡ offer_said (texts_left words.entry)) }
{
    let mut words = words;
    let Some(head) = next_number(&mut words, 255) else {
        return Ok(None);
    };
    let Some(cost) = next_number(&mut words, 65_535) else {
        return Ok(None);
    };
    let Some(items) = bytes(heap, words)? else {
        return Ok(None);
    };
    Ok(Some(BookLine::Offer {
        head: head as u8,
        items,
        cost: cost as u16,
    }))
}

// A load of a rule in the same line, or of those that follow.
fn load<'t, P, E>(text: &'t [u8], words: Words<'t>) -> Said<'t, P, E>
    ensures { item_of result ≡ load_said text.now (words_left words.entry) }
{
    let mut words = words;
    match words.next() {
        Some(word) => Said::Call(BookLine::Load(text.get(word.place..).unwrap_or(&[]))),
        None => Said::Rules,
    }
}

// What the words behind the first say in a line of this kind and number.
fn item<'t, A: Spelled>(
    heap: Global,
    number: usize,
    first: First,
    text: &'t [u8],
    words: Words<'t>,
) -> Result<Said<'t, A::Pattern, A::Event>, ScriptFault>
    ensures { LineGives number item_of result (ok_or (item_said A.Spelled.spelling first text.now (words_left words.entry)) Cause.OtherWords) }
{
    let other = ScriptFault::Line(number, Cause::OtherWords);
    match first {
        First::Patterns => Ok(Said::Patterns(A::patterns(heap, words)?.ok_or(other)?)),
        First::Offer => Ok(Said::Call(offer(heap, words)?.ok_or(other)?)),
        First::Load => Ok(load(text, words)),
        First::Strike => only(Said::Call(BookLine::Strike), words).ok_or(other),
        First::Weights => Ok(Said::Weights(one_number(words, WEIGHTS).ok_or(other)?)),
        First::Nodes => Ok(Said::Nodes(one_number(words, NODES).ok_or(other)?)),
        First::Feed => {
            let event = A::event(words).ok_or(other)?;
            Ok(Said::Chart(ChartLine::Call(ChartCall::Feed(event))))
        }
        First::Withdraw => {
            let count = one_number(words, u32::MAX).ok_or(other)?;
            Ok(Said::Chart(ChartLine::Call(ChartCall::Withdraw(count))))
        }
        First::Total => only(Said::Chart(ChartLine::Ask(Question::Total)), words).ok_or(other),
        First::Reading => only(Said::Chart(ChartLine::Ask(Question::Reading)), words).ok_or(other),
    }
}

// What the line of this number says; nothing where it has no word.
pub(crate) fn line_said<'t, A: Spelled>(
    heap: Global,
    number: usize,
    line: Line<'t>,
) -> Result<Option<Said<'t, A::Pattern, A::Event>>, ScriptFault>
    ensures { LineGives number (option_map item_of) result (line_said A.Spelled.spelling (drop line.entry.from line.entry.text.now)) }
{
    let mut words = line.words();
    let Some(word) = words.next() else {
        return Ok(None);
    };
    let Some(first) = first_of(A::name(), word.bytes) else {
        return Err(ScriptFault::Line(number, Cause::UnknownLine));
    };
    Ok(Some(item::<A>(heap, number, first, line.text, words)?))
}
