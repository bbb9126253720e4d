// The calls of a script up to a line, and what is asked after them: each by a replay of all these calls.
ghost use Rattle.std.specs.Prelude.{◌≡◌, ◌+◌, ◌≤◌, length, map, IfOk, vec_len};
ghost use Rattle.grammar.specs.Productions.{Sound};
ghost use Rattle.grammar.specs.Weights.{total_of};
ghost use Rattle.chart.specs.Nodes.{nodes_of};
ghost use Rattle.chart.specs.Readings.{reading_answer, ReadingIs};
ghost use Rattle.replay.specs.Answers.{said};
ghost use Rattle.programs.specs.Output.{trace_totals};
ghost use Rattle.programs.specs.Calls.{calls_book, calls_fits, calls_events, calls_answers};

use crate::totals::{Totals, Verdict};
use book::alphabet::Alphabet;
use book::table::PatternTable;
use chart::fault::ReadingFault;
use chart::node::Node;
use replay::answer::Answer;
use replay::call::{BookCall, ChartCall};
use replay::reading::replay_reading;
use replay::replay::replay;
use std::alloc::{AllocError, Global};
use weighing::kinds::{Count, LeastCost, YesNo};
use weighing::weighing::Weighing;

// The calls up to a line.
#[derive(Clone, Copy)]
pub(crate) struct Calls<'c, P, E> {
    pub(crate) patterns: &'c [P],
    pub(crate) book: &'c [BookCall<'c>],
    pub(crate) chart: &'c [ChartCall<E>],
}

// The table of patterns, of which there are few enough.
fn checked<A: Alphabet>(patterns: &[A::Pattern]) -> PatternTable<'_, A>
    requires { length patterns.now ≤ 32 }
    ensures { result.patterns.now ≡ patterns.now }
{
    match PatternTable::check(patterns) {
        Ok(table) => table,
        Err(_) => unreachable!(),
    }
}

// A place for the answer to each call; more places than numbers can say are more than memory has.
fn places<P, E>(heap: Global, calls: &Calls<P, E>) -> Result<Vec<Answer>, AllocError>
    ensures { IfOk result (λ v. vec_len v ≡ length calls.now.book.now + length calls.now.chart.now) }
{
    let count = calls
        .book
        .len()
        .checked_add(calls.chart.len())
        .ok_or(AllocError)?;
    vec![in heap; Answer::Struck(Ok(0)); count]
}

// The total by a weighing, over a table of so many weights, and the answers.
fn total<A: Alphabet, W: Weighing>(
    heap: Global,
    calls: &Calls<A::Pattern, A::Event>,
    weights: usize,
    answers: &mut [Answer],
) -> Result<W::Value, AllocError>
    requires few { length calls.now.patterns.now ≤ 32 }
    requires places { length answers.old ≡ length calls.now.book.now + length calls.now.chart.now }
    ensures total { IfOk result (λ r. r ≡ total_of (calls_book calls.now) W.Weighing.ops (calls_fits A.Alphabet.test calls.now) (calls_events weights calls.now)) }
    ensures answers { IfOk result (λ _. map said answers.new ≡ calls_answers weights calls.now) }
{
    let mut table = vec![in heap; W::zero(); weights]?;
    let patterns = checked::<A>(calls.patterns);
    match replay::<A, W>(patterns, calls.book, calls.chart, &mut table, answers) {
        Ok(total) => Ok(total),
        Err(_) => unreachable!(),
    }
}

// The totals by the three weighings.
pub(crate) fn totals<A: Alphabet>(
    heap: Global,
    calls: &Calls<A::Pattern, A::Event>,
    weights: usize,
) -> Result<Totals, AllocError>
    requires { Sound (calls_book calls.now) }
    ensures { IfOk result (λ t. t ≡ trace_totals (calls_book calls.now) (calls_fits A.Alphabet.test calls.now) (calls_events weights calls.now)) }
{
    let mut answers = places(heap, calls)?;
    Ok(Totals {
        verdict: Verdict(total::<A, YesNo>(heap, calls, weights, &mut answers)?),
        count: total::<A, Count>(heap, calls, weights, &mut answers)?.value(),
        least: total::<A, LeastCost>(heap, calls, weights, &mut answers)?.value(),
    })
}

// The reading taken, its nodes in a table.
pub(crate) fn reading<A: Alphabet>(
    heap: Global,
    calls: &Calls<A::Pattern, A::Event>,
    weights: usize,
    nodes: &mut [Node],
) -> Result<Result<Option<usize>, ReadingFault>, AllocError>
    requires { length calls.now.patterns.now ≤ 32 }
    ensures { IfOk result (λ r. ReadingIs (calls_book calls.now) (calls_fits A.Alphabet.test calls.now) (calls_events weights calls.now) (nodes_of nodes.old) (reading_answer r) (nodes_of nodes.new)) }
{
    let mut answers = places(heap, calls)?;
    let mut table = vec![in heap; YesNo::zero(); weights]?;
    let patterns = checked::<A>(calls.patterns);
    match replay_reading(
        patterns,
        calls.book,
        calls.chart,
        &mut table,
        &mut answers,
        nodes,
    ) {
        Ok(replayed) => Ok(replayed.reading),
        Err(_) => unreachable!(),
    }
}

// The answers.
pub(crate) fn answers<A: Alphabet>(
    heap: Global,
    calls: &Calls<A::Pattern, A::Event>,
    weights: usize,
) -> Result<Vec<Answer>, AllocError>
    requires { length calls.now.patterns.now ≤ 32 }
    ensures { IfOk result (λ v. map said v.items ≡ calls_answers weights calls.now) }
{
    let mut answers = places(heap, calls)?;
    total::<A, YesNo>(heap, calls, weights, &mut answers)?;
    Ok(answers)
}
