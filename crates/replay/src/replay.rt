// The total after the calls of a new book and of a chart cut from it.
ghost use Rattle.std.specs.Prelude.{◌≡◌, ◌≢◌, ◌+◌, ◌↔◌, length, map, IfOk, IsErr, MatchResult};
ghost use Rattle.book.specs.Fits.{table_fits, TestsTable};
ghost use Rattle.chart.specs.Charts.{HoldsChart};
ghost use Rattle.chart.specs.Totals.{TotalIs};
ghost use Rattle.replay.specs.Answers.{said, answer_kind};
ghost use Rattle.replay.specs.Calls.{chart_call_of};
ghost use Rattle.replay.specs.Leavings.{Leaves};
ghost use Rattle.replay.specs.Replays.{replayed_book, replayed_events, replayed_answers, replayed_kinds};

use crate::answer::Answer;
use crate::book_run::run_book;
use crate::call::{BookCall, ChartCall};
use crate::chart_run::run_chart;
use crate::fault::ReplayFault;
use book::alphabet::Alphabet;
use book::table::PatternTable;
use weighing::weighing::Weighing;

// Refuses another number of answers than of calls.
pub(crate) fn check_answers(
    answers: usize,
    book_calls: usize,
    chart_calls: usize,
) -> Result<(), ReplayFault>
    ensures { MatchResult result (λ _. answers ≡ book_calls + chart_calls) (λ _. answers ≢ book_calls + chart_calls) }
{
    match answers.checked_sub(book_calls) {
        Some(others) if others == chart_calls => Ok(()),
        _ => Err(ReplayFault::OtherAnswers),
    }
}

// Makes the calls of a book on a new one over the table, closes it, cuts a chart from it and makes the chart's calls: the total of the events
// then held. The answer to each call stands in its place, those of the book first.
pub fn replay<A: Alphabet, W: Weighing>(
    table: PatternTable<A>,
    book_calls: &[BookCall],
    chart_calls: &[ChartCall<A::Event>],
    weights: &mut [W::Value],
    answers: &mut [Answer],
) -> Result<W::Value, ReplayFault>
    ensures total { IfOk result (λ r. TotalIs (replayed_book table.entry.patterns.now book_calls.now) W.Weighing.ops (table_fits A.Alphabet.test table.entry.patterns.now) (replayed_events table.entry.patterns.now book_calls.now (length weights.old) chart_calls.now) r) }
    ensures chart { IfOk result (λ _. HoldsChart (replayed_book table.entry.patterns.now book_calls.now) W.Weighing.ops (table_fits A.Alphabet.test table.entry.patterns.now) (replayed_events table.entry.patterns.now book_calls.now (length weights.old) chart_calls.now) weights.new) }
    ensures leaves { IfOk result (λ _. Leaves (replayed_book table.entry.patterns.now book_calls.now) W.Weighing.ops (table_fits A.Alphabet.test table.entry.patterns.now) (map chart_call_of chart_calls.now) weights.old weights.new) }
    ensures answers { IfOk result (λ _. map said answers.new ≡ replayed_answers table.entry.patterns.now book_calls.now (length weights.old) chart_calls.now) }
    ensures kinds { IfOk result (λ _. map answer_kind answers.new ≡ replayed_kinds book_calls.now chart_calls.now) }
    ensures refused { IsErr result ↔ (length answers.old ≢ length book_calls.now + length chart_calls.now) }
    ensures stands { IsErr result → (answers.new ≡ answers.old) × (weights.new ≡ weights.old) }
    ensures fits { TestsTable A.Alphabet.fits table.entry.patterns.now (table_fits A.Alphabet.test table.entry.patterns.now) }
{
    check_answers(answers.len(), book_calls.len(), chart_calls.len())?;
    let (front, back) = answers.split_at_mut(book_calls.len());
    let book = run_book(table, book_calls, front);
    let chart = run_chart::<A, W>(&book, weights, chart_calls, back);
    Ok(chart.total())
}
