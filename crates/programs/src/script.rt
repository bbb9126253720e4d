// The script program: scripts in, the answer to each call out. A line `%` alone parts one script from the next, in the input and in the output.
// The lines of a script, their words parted by spaces; lines without words are passed over:
// - bytes WORD ..: the book is over bytes, and each byte of the words is a pattern, numbered from 0.
// - cards, or cards KIND LOWEST HIGHEST: the book is over card events, and the words are a pattern. A line of patterns begins the script.
// - offer HEAD COST ITEM ..: an offer; item h is head h, item 32 + t is pattern t.
// - load TEXT: a load of one rule line; or load alone, then rule lines, then end: a load of all of them.
// - strike: a strike.
// - weights N, nodes N: so many weights have the tables of weights, so many nodes that of nodes; 0 where no line says it.
// - feed BYTE, or feed KIND ARGUMENT: a feed of an event. withdraw K: a withdrawal of the last K events.
// - total, reading: what is asked of the chart there.
// Patterns come before the calls of the book, and these and the sizes before those of the chart and what is asked.
// A call prints what it answers: a number, or refused and its number, after a load with the byte place in its text. A total prints yes or no, the
// number of readings and the least cost. A reading prints none; or nodes, their number, and a line RULE FIRST COUNT for each; or refused 13
// and the nodes that stand. A malformed script prints one line, with the number of its line in the input, and a refused table of
// patterns refused 8.
ghost use Rattle.std.specs.Prelude.{◌≡◌, ◌+◌, ◌<◌, ◌≤◌, ◌^◌, ◌++◌, length, IfOk, OnOk, string_bytes};
ghost use Rattle.programs.specs.Output.{line_texts};
ghost use Rattle.programs.specs.ScriptLines.{read};
ghost use Rattle.programs.specs.ScriptOutput.{part, parts, first_word, read_print, part_print, parts_print, script_output};
ghost use Rattle.programs.specs.ScriptMeans.{ScriptMeans};
ghost use Rattle.programs.specs.ScriptSaid.{TextGives};

mod calls;
pub mod fault;
mod lines;
mod print;
mod read;
mod run;
mod said;
mod spelled;
mod words;

use crate::divide::divides;
use crate::script::fault::{Cause, ScriptFault};
use crate::script::read::{Part, read};
use crate::script::run::run;
use crate::script::said::same;
use crate::script::spelled::Spelled;
use book::alphabet::{Bytes, Cards};
use std::alloc::{AllocError, Global};
use text::lines::Lines;

// The longest input that is read.
pub const LIMIT: usize = 1_048_576;

// The first word of a script, with the number of its line; no byte where it has no word, and the number behind its last line.
fn first_word<'t>(part: Part<'t>) -> (usize, &'t [u8])
    requires { part.first + length part.text.now < 2 ^ 63 }
    ensures { (result.0, result.1.now) ≡ first_word part.entry.first (line_texts part.entry.text.now) }
{
    let mut number = part.first;
    for line in Lines::of(part.text) {
        let mut words = line.words();
        if let Some(word) = words.next() {
            return (number, word.bytes);
        }
        number += 1;
    }
    (number, &[])
}

// What a script over this alphabet prints.
fn read_text<A: Spelled>(heap: Global, part: Part<'_>) -> Result<String, ScriptFault>
    requires { part.first + length part.text.now < 2 ^ 63 }
    ensures { TextGives string_bytes result (read_print A.Alphabet.test (read A.Spelled.spelling part.entry.first (line_texts part.entry.text.now))) }
{
    let script = read::<A>(heap, part)?;
    Ok(run::<A>(heap, &script)?)
}

// What a script prints, by the alphabet that its first word names.
fn part_text(heap: Global, script: Part<'_>) -> Result<String, ScriptFault>
    requires { script.first + length script.text.now < 2 ^ 63 }
    ensures { TextGives string_bytes result (part_print (part script.entry.first (line_texts script.entry.text.now))) }
{
    let (number, word) = first_word(script);
    if same(word, Bytes::name()) {
        return read_text::<Bytes>(heap, script);
    }
    if same(word, Cards::name()) {
        return read_text::<Cards>(heap, script);
    }
    Err(ScriptFault::Line(number, Cause::NoAlphabet))
}

// Adds what a script prints, or why it is not run.
fn push_part(heap: Global, out: &mut String, script: Part<'_>) -> Result<(), AllocError>
    requires { script.first + length script.text.now < 2 ^ 63 }
    ensures { OnOk result (string_bytes out.new ≡ string_bytes out.old ++ part_print (part script.entry.first (line_texts script.entry.text.now))) }
{
    match part_text(heap, script) {
        Ok(text) => out.push_str(&text),
        Err(ScriptFault::NoMemory(error)) => Err(error),
        Err(ScriptFault::Line(number, cause)) => {
            writeln!(out, "{}", ScriptFault::Line(number, cause))
        }
    }
}

// What all scripts print, with the lines between them.
fn parts_text(heap: Global, input: &[u8]) -> Result<String, AllocError>
    requires { length input.now ≤ 1048576 }
    ensures { IfOk result (λ s. string_bytes s ≡ parts_print (parts 1 (line_texts input.now))) }
{
    let mut out = String::new(heap);
    let mut from = 0;
    let mut first = 1;
    let mut number = 1;
    for line in Lines::of(input) {
        number += 1;
        if divides(line) {
            let text = &input[from..line.from];
            push_part(heap, &mut out, Part { text, first })?;
            writeln!(out, "%")?;
            from = line.text.len() + 1;
            first = number;
        }
    }
    let text = input.get(from..).unwrap_or(&[]);
    push_part(heap, &mut out, Part { text, first })?;
    Ok(out)
}

// The output for an input of any bytes.
pub fn script(heap: Global, input: &[u8]) -> Result<String, AllocError>
    ensures output { IfOk result (λ s. string_bytes s ≡ script_output input.now) }
    ensures means { ScriptMeans input.now }
{
    if input.len() > LIMIT {
        return format!(in heap; "refused 25\n");
    }
    parts_text(heap, input)
}
