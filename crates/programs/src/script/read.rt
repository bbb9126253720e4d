// A script as it is read, line by line.
ghost use Rattle.std.specs.Prelude.{◌≡◌, ◌+◌, ◌<◌, ◌≤◌, ◌^◌, ◌∷◌, [], ◌++◌, IfSome, OnOk, option_map, drop, take, length};
ghost use Rattle.programs.specs.Output.{line_texts};
ghost use Rattle.programs.specs.Said.{script_said};
ghost use Rattle.programs.specs.ScriptLines.{may_come, with_item, rules_of, behind_said, behind_rules, behind_line, nothing_said, line_said, read};
ghost use Rattle.programs.specs.ScriptSaid.{item_of, LineGives, read_so_far, ScriptGives};

use crate::script::fault::{Cause, ScriptFault};
use crate::script::lines::{BookLine, Script, Sizes};
use crate::script::said::{Said, line_said, same};
use crate::script::spelled::Spelled;
use std::alloc::{AllocError, Global};
use text::lines::{Line, Lines};

// A part of the input: its text, and the number of its first line.
#[derive(Clone, Copy)]
pub(crate) struct Part<'t> {
    pub(crate) text: &'t [u8],
    pub(crate) first: usize,
}

// A script that is being read.
#[derive(Drop)]
pub(crate) struct Reader<'t, P, E> {
    pub(crate) script: Script<'t, P, E>,
    // where the rules of a load begin whose end is still to come
    pub(crate) rules: Option<usize>,
}

// A script of which nothing is said yet.
fn nothing_said<'t, P, E>(heap: Global) -> Script<'t, P, E>
    ensures { script_said result ≡ nothing_said }
{
    Script {
        patterns: Vec::new(heap),
        book: Vec::new(heap),
        sizes: Sizes {
            weights: 0,
            nodes: 0,
        },
        chart: Vec::new(heap),
    }
}

// Whether a line may say this behind the lines of this script: patterns come before the book's calls, and these and the sizes before the
// chart's lines.
fn may_come<P, E>(script: &Script<'_, P, E>, said: &Said<'_, P, E>) -> bool
    ensures { result ≡ may_come (script_said script.now) (item_of said.now) }
{
    match said {
        Said::Patterns(_) => script.book.is_empty() && script.chart.is_empty(),
        Said::Chart(_) => true,
        _ => script.chart.is_empty(),
    }
}

// Takes in what a line says; the line after it begins at a place.
fn take<'t, P: Copy, E: Copy>(
    reader: &mut Reader<'t, P, E>,
    said: Said<'t, P, E>,
    next: usize,
) -> Result<(), AllocError>
    requires { reader.old.rules ≡ None }
    ensures script { OnOk result (script_said reader.new.script ≡ with_item (script_said reader.old.script) (item_of said.entry)) }
    ensures rules { OnOk result (reader.new.rules ≡ option_map (λ _. next) (rules_of (item_of said.entry))) }
{
    match said {
        Said::Patterns(patterns) => reader.script.patterns.extend_from_slice(&patterns)?,
        Said::Call(call) => reader.script.book.push(call)?,
        Said::Rules => reader.rules = Some(next),
        Said::Weights(weights) => reader.script.sizes.weights = weights,
        Said::Nodes(nodes) => reader.script.sizes.nodes = nodes,
        Said::Chart(line) => reader.script.chart.push(line)?,
    }
    Ok(())
}

// Takes in the line of a number that stands in no load's rules.
fn take_said<'t, A: Spelled>(
    heap: Global,
    reader: &mut Reader<'t, A::Pattern, A::Event>,
    number: usize,
    line: Line<'t>,
) -> Result<(), ScriptFault>
    requires { reader.old.rules ≡ None }
    ensures gives { LineGives number (λ _. read_so_far (line.entry.text.now ++ (10 ∷ [])) reader.new) result (behind_said (script_said reader.old.script) (line_said A.Spelled.spelling (drop line.entry.from line.entry.text.now))) }
    ensures within { OnOk result (IfSome reader.new.rules (λ from. from ≤ length line.entry.text.now + 1)) }
{
    let Some(said) = line_said::<A>(heap, number, line)? else {
        return Ok(());
    };
    if !may_come(&reader.script, &said) {
        return Err(ScriptFault::Line(number, Cause::OutOfPlace));
    }
    Ok(take(reader, said, line.text.len() + 1)?)
}

// Takes in a line of the rules that a load began at a place, or their end.
fn take_rule<'t, P: Drop, E: Drop>(
    reader: &mut Reader<'t, P, E>,
    line: Line<'t>,
    from: usize,
) -> Result<(), AllocError>
    requires begun { reader.old.rules ≡ Some from }
    requires before { from ≤ line.from }
    ensures gives { OnOk result (read_so_far (line.entry.text.now ++ (10 ∷ [])) reader.new ≡ behind_rules (script_said reader.old.script) (drop from (take line.entry.from line.entry.text.now)) (drop line.entry.from line.entry.text.now)) }
    ensures within { OnOk result (IfSome reader.new.rules (λ from. from ≤ length line.entry.text.now + 1)) }
{
    if same(line.bytes(), b"end") {
        let rules = &line.text[from..line.from];
        reader.script.book.push(BookLine::Load(rules))?;
        reader.rules = None;
    }
    Ok(())
}

// Takes in the line of a number.
fn take_line<'t, A: Spelled>(
    heap: Global,
    reader: &mut Reader<'t, A::Pattern, A::Event>,
    number: usize,
    line: Line<'t>,
) -> Result<(), ScriptFault>
    requires { IfSome reader.old.rules (λ from. from ≤ line.from) }
    ensures gives { LineGives number (λ _. read_so_far (line.entry.text.now ++ (10 ∷ [])) reader.new) result (behind_line A.Spelled.spelling (read_so_far (take line.entry.from line.entry.text.now) reader.old) (drop line.entry.from line.entry.text.now)) }
    ensures within { OnOk result (IfSome reader.new.rules (λ from. from ≤ length line.entry.text.now + 1)) }
{
    match reader.rules {
        Some(from) => Ok(take_rule(reader, line, from)?),
        None => take_said::<A>(heap, reader, number, line),
    }
}

// The script that a part of the input is.
pub(crate) fn read<'t, A: Spelled>(
    heap: Global,
    part: Part<'t>,
) -> Result<Script<'t, A::Pattern, A::Event>, ScriptFault>
    requires { part.first + length part.text.now < 2 ^ 63 }
    ensures { ScriptGives script_said result (read A.Spelled.spelling part.entry.first (line_texts part.entry.text.now)) }
{
    let mut reader = Reader {
        script: nothing_said(heap),
        rules: None,
    };
    let mut number = part.first;
    for line in Lines::of(part.text) {
        take_line::<A>(heap, &mut reader, number, line)?;
        number += 1;
    }
    if reader.rules.is_some() {
        return Err(ScriptFault::Line(number, Cause::NoEnd));
    }
    Ok(reader.script)
}
