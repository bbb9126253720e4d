// A script as it is run: the answer to each call, and what is asked on the way. Each total and each reading is that of a replay of all calls
// up to its line.
ghost use Rattle.std.specs.Prelude.{◌≡◌, ◌++◌, ◌≤◌, [], length, map, IfOk, OnOk, string_bytes};
ghost use Rattle.grammar.specs.Lists.{each};
ghost use Rattle.grammar.specs.Productions.{Sound};
ghost use Rattle.replay.specs.Calls.{call_of, chart_call_of};
ghost use Rattle.replay.specs.Answers.{said, book_answers, chart_answers};
ghost use Rattle.programs.specs.Calls.{calls_book, calls_symbols, calls_fits, calls_events, calls_answers};
ghost use Rattle.programs.specs.Scripts.{a_reading};
ghost use Rattle.programs.specs.Said.{book_line, asked, chart_line, script_said};
ghost use Rattle.programs.specs.Printed.{answer_text, line_text, lines_text, script_print, calls_in, AllCheap, PrintMeans};

use crate::script::calls::{Calls, answers, reading, totals};
use crate::script::lines::{BookLine, ChartLine, Question, Script, Sizes};
use crate::script::print::{push_answers, push_reading};
use book::alphabet::Alphabet;
use book::table::PatternTable;
use chart::node::Node;
use replay::answer::Answer;
use replay::call::{BookCall, ChartCall};
use std::alloc::{AllocError, Global};

// The calls of the book that lines say.
fn book_calls<'c>(heap: Global, lines: &'c [BookLine<'c>]) -> Result<Vec<BookCall<'c>>, AllocError>
    ensures says { IfOk result (λ v. map call_of v.items ≡ map book_line lines.now) }
    ensures cheap { IfOk result (λ v. AllCheap (map call_of v.items)) }
{
    let mut calls = Vec::new(heap);
    for line in lines {
        calls.push(line.call())?;
    }
    Ok(calls)
}

// The calls of the chart among lines.
fn chart_calls<E: Copy>(
    heap: Global,
    lines: &[ChartLine<E>],
) -> Result<Vec<ChartCall<E>>, AllocError>
    ensures { IfOk result (λ v. map chart_call_of v.items ≡ calls_in (map chart_line lines.now)) }
{
    let mut calls = Vec::new(heap);
    for line in lines {
        match line {
            ChartLine::Call(call) => calls.push(*call)?,
            ChartLine::Ask(_) => {}
        }
    }
    Ok(calls)
}

// Adds the reading after these calls, in a table of nodes.
fn push_taken<A: Alphabet>(
    heap: Global,
    out: &mut String,
    calls: &Calls<A::Pattern, A::Event>,
    weights: usize,
    nodes: &mut [Node],
) -> Result<(), AllocError>
    requires { Sound (calls_book calls.now) }
    ensures { OnOk result (string_bytes out.new ≡ string_bytes out.old ++ line_text (calls_book calls.now) (calls_fits A.Alphabet.test calls.now) weights (length nodes.old) (calls_events weights calls.now) a_reading) }
{
    let answer = reading::<A>(heap, calls, weights, nodes)?;
    push_reading(out, answer, nodes)
}

// Adds what is asked after these calls.
fn push_asked<A: Alphabet>(
    heap: Global,
    out: &mut String,
    calls: &Calls<A::Pattern, A::Event>,
    question: Question,
    sizes: Sizes,
) -> Result<(), AllocError>
    requires { Sound (calls_book calls.now) }
    ensures { OnOk result (string_bytes out.new ≡ string_bytes out.old ++ line_text (calls_book calls.now) (calls_fits A.Alphabet.test calls.now) sizes.weights sizes.nodes (calls_events sizes.weights calls.now) (asked question)) }
{
    match question {
        Question::Total => writeln!(out, "{}", totals::<A>(heap, calls, sizes.weights)?),
        Question::Reading => {
            let node = Node {
                rule: 0,
                first: 0,
                count: 0,
            };
            let mut nodes = vec![in heap; node; sizes.nodes]?;
            push_taken::<A>(heap, out, calls, sizes.weights, &mut nodes)
        }
    }
}

// Adds what the lines of the chart print: the answers of its calls, which were all made before, and what is asked on the way.
fn push_lines<A: Alphabet>(
    heap: Global,
    out: &mut String,
    calls: &Calls<A::Pattern, A::Event>,
    lines: &[ChartLine<A::Event>],
    answers: &[Answer],
    sizes: Sizes,
) -> Result<(), AllocError>
    requires sound { Sound (calls_book calls.now) }
    requires calls { map chart_call_of calls.now.chart.now ≡ calls_in (map chart_line lines.now) }
    requires answers { map said answers.now ≡ chart_answers (calls_symbols calls.now) sizes.weights [] (map chart_call_of calls.now.chart.now) }
    ensures { OnOk result (string_bytes out.new ≡ string_bytes out.old ++ lines_text (calls_book calls.now) (calls_fits A.Alphabet.test calls.now) sizes.weights sizes.nodes [] (map chart_line lines.now)) }
{
    let mut made = 0;
    for line in lines {
        match line {
            ChartLine::Call(_) => {
                if made < answers.len() {
                    writeln!(out, "{}", answers[made])?;
                    made += 1;
                }
            }
            ChartLine::Ask(question) => {
                let before = Calls {
                    patterns: calls.patterns,
                    book: calls.book,
                    chart: &calls.chart[..made],
                };
                push_asked::<A>(heap, out, &before, *question, sizes)?;
            }
        }
    }
    Ok(())
}

// What the calls of a script are answered, and what is asked among the lines of its chart.
fn calls_text<A: Alphabet>(
    heap: Global,
    calls: &Calls<A::Pattern, A::Event>,
    lines: &[ChartLine<A::Event>],
    sizes: Sizes,
) -> Result<String, AllocError>
    requires sound { Sound (calls_book calls.now) }
    requires calls { map chart_call_of calls.now.chart.now ≡ calls_in (map chart_line lines.now) }
    ensures { IfOk result (λ s. string_bytes s ≡ each answer_text (book_answers (length calls.now.patterns.now) [] (map call_of calls.now.book.now)) ++ lines_text (calls_book calls.now) (calls_fits A.Alphabet.test calls.now) sizes.weights sizes.nodes [] (map chart_line lines.now)) }
{
    let all = answers::<A>(heap, calls, sizes.weights)?;
    let (first, others) = all.split_at(calls.book.len());
    let mut out = String::new(heap);
    push_answers(&mut out, first)?;
    push_lines::<A>(heap, &mut out, calls, lines, others, sizes)?;
    Ok(out)
}

// What a script of few enough patterns prints: a line for each answer, in the order of its lines.
fn run_calls<A: Alphabet>(
    heap: Global,
    script: &Script<A::Pattern, A::Event>,
) -> Result<String, AllocError>
    requires { length script.now.patterns.items ≤ 32 }
    ensures { IfOk result (λ s. string_bytes s ≡ script_print A.Alphabet.test (script_said script.now)) }
{
    let book = book_calls(heap, &script.book)?;
    let chart = chart_calls(heap, &script.chart)?;
    let calls = Calls {
        patterns: &script.patterns,
        book: &book,
        chart: &chart,
    };
    calls_text::<A>(heap, &calls, &script.chart, script.sizes)
}

// What a script prints: the answers, or the refusal of its table of patterns.
pub(crate) fn run<A: Alphabet>(
    heap: Global,
    script: &Script<A::Pattern, A::Event>,
) -> Result<String, AllocError>
    ensures printed { IfOk result (λ s. string_bytes s ≡ script_print A.Alphabet.test (script_said script.now)) }
    ensures means { AllCheap (script_said script.now).book → PrintMeans A.Alphabet.fits A.Alphabet.test (script_said script.now) }
{
    if let Err(fault) = PatternTable::<A>::check(&script.patterns) {
        return format!(in heap; "refused {}\n", fault.number());
    }
    run_calls::<A>(heap, script)
}
