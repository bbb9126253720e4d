// The reading after the calls of a new book and of a yes/no chart cut from it.
ghost use Rattle.std.specs.Prelude.{◌≡◌, ◌≢◌, ◌+◌, ◌↔◌, length, map, IfOk, IsErr};
ghost use Rattle.grammar.specs.Weighings.{yes_no};
ghost use Rattle.book.specs.Fits.{table_fits, TestsTable};
ghost use Rattle.chart.specs.Charts.{HoldsChart};
ghost use Rattle.chart.specs.Totals.{Explained};
ghost use Rattle.chart.specs.Nodes.{nodes_of};
ghost use Rattle.chart.specs.Readings.{reading_answer, ReadingIs};
ghost use Rattle.replay.specs.Answers.{said, answer_kind};
ghost use Rattle.replay.specs.Calls.{chart_call_of};
ghost use Rattle.replay.specs.Leavings.{Leaves};
ghost use Rattle.replay.specs.Replays.{replayed_book, replayed_events, replayed_answers, replayed_kinds};

use crate::answer::Answer;
use crate::book_run::run_book;
use crate::call::{BookCall, ChartCall};
use crate::chart_run::run_chart;
use crate::fault::ReplayFault;
use crate::replay::check_answers;
use book::alphabet::Alphabet;
use book::table::PatternTable;
use chart::fault::ReadingFault;
use chart::node::Node;
use chart::reading::reading;
use chart::totals::explained;
use weighing::kinds::YesNo;

// Whether there is a reading of the events held, and how many nodes the one taken has, or the refusal of the call for it.
#[derive(Clone, Copy, Debug, PartialEq, Eq)]
pub struct Replayed {
    pub verdict: bool,
    pub reading: Result<Option<usize>, ReadingFault>,
}

// Makes the calls as `replay` does, by yes and no, and writes the nodes of the reading taken of the events then held into the caller's table.
pub fn replay_reading<A: Alphabet>(
    table: PatternTable<A>,
    book_calls: &[BookCall],
    chart_calls: &[ChartCall<A::Event>],
    weights: &mut [bool],
    answers: &mut [Answer],
    nodes: &mut [Node],
) -> Result<Replayed, ReplayFault>
    ensures explained { IfOk result (λ r. Explained (replayed_book table.entry.patterns.now book_calls.now) (table_fits A.Alphabet.test table.entry.patterns.now) (replayed_events table.entry.patterns.now book_calls.now (length weights.old) chart_calls.now) r.verdict) }
    ensures reading { IfOk result (λ r. ReadingIs (replayed_book table.entry.patterns.now book_calls.now) (table_fits A.Alphabet.test table.entry.patterns.now) (replayed_events table.entry.patterns.now book_calls.now (length weights.old) chart_calls.now) (nodes_of nodes.old) (reading_answer r.reading) (nodes_of nodes.new)) }
    ensures chart { IfOk result (λ _. HoldsChart (replayed_book table.entry.patterns.now book_calls.now) yes_no (table_fits A.Alphabet.test table.entry.patterns.now) (replayed_events table.entry.patterns.now book_calls.now (length weights.old) chart_calls.now) weights.new) }
    ensures leaves { IfOk result (λ _. Leaves (replayed_book table.entry.patterns.now book_calls.now) yes_no (table_fits A.Alphabet.test table.entry.patterns.now) (map chart_call_of chart_calls.now) weights.old weights.new) }
    ensures answers { IfOk result (λ _. map said answers.new ≡ replayed_answers table.entry.patterns.now book_calls.now (length weights.old) chart_calls.now) }
    ensures kinds { IfOk result (λ _. map answer_kind answers.new ≡ replayed_kinds book_calls.now chart_calls.now) }
    ensures refused { IsErr result ↔ (length answers.old ≢ length book_calls.now + length chart_calls.now) }
    ensures stands { IsErr result → (answers.new ≡ answers.old) × (weights.new ≡ weights.old) × (nodes.new ≡ nodes.old) }
    ensures fits { TestsTable A.Alphabet.fits table.entry.patterns.now (table_fits A.Alphabet.test table.entry.patterns.now) }
{
    check_answers(answers.len(), book_calls.len(), chart_calls.len())?;
    let (front, back) = answers.split_at_mut(book_calls.len());
    let book = run_book(table, book_calls, front);
    let chart = run_chart::<A, YesNo>(&book, weights, chart_calls, back);
    Ok(Replayed {
        verdict: explained(&chart),
        reading: reading(&chart, nodes),
    })
}
