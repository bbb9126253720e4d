// A chart's calls, one after the other.
ghost use Rattle.std.specs.Prelude.{◌≡◌, ◌+◌, [], length, map};
ghost use Rattle.grammar.specs.Binarise.{binarised};
ghost use Rattle.book.specs.Books.{closed_book, closed_fits};
ghost use Rattle.chart.specs.Events.{chart_symbols};
ghost use Rattle.chart.specs.Table.{column_place, SameOutside};
ghost use Rattle.chart.specs.Runs.{HoldsAfter, RunsOn};
ghost use Rattle.replay.specs.Calls.{chart_call_of};
ghost use Rattle.replay.specs.Answers.{said, chart_answer, chart_answers, answer_kind, chart_kind};
ghost use Rattle.replay.specs.Leavings.{Leaves};

use crate::answer::Answer;
use crate::call::ChartCall;
use book::alphabet::Alphabet;
use book::books::ClosedBook;
use chart::chart::Chart;
use weighing::weighing::Weighing;

// One call, with its answer.
fn call_chart<A: Alphabet, W: Weighing>(
    chart: &mut Chart<A, W>,
    call: &ChartCall<A::Event>,
) -> Answer
    ensures says { said result ≡ chart_answer (chart_symbols chart.old) (length chart.old.weights.now) chart.old.events (chart_call_of call.now) }
    ensures kind { answer_kind result ≡ chart_kind (chart_call_of call.now) }
    ensures runs { RunsOn W.Weighing.ops A.Alphabet.test (chart_call_of call.now) chart.old chart.new }
    ensures outside { SameOutside W.Weighing.ops.zero (column_place (chart_symbols chart.old) (chart.old.events + 1)) (column_place (chart_symbols chart.old) (chart.new.events + 1)) chart.old.weights.now chart.new.weights.now }
    ensures long { length chart.new.weights.now ≡ length chart.old.weights.now }
    ensures book { chart.new.book ≡ chart.old.book }
    ensures same { chart.new.weights.ghost_name ≡ chart.old.weights.ghost_name }
{
    match *call {
        ChartCall::Feed(event) => Answer::Fed(chart.feed(event)),
        ChartCall::Withdraw(count) => Answer::Withdrawn(chart.withdraw(count)),
    }
}

// The chart that the calls lead to from a new one, each answer in its place.
pub(crate) fn run_chart<'b, 'p, 't, A: Alphabet, W: Weighing>(
    book: &'b ClosedBook<'p, A>,
    weights: &'t mut [W::Value],
    calls: &[ChartCall<A::Event>],
    answers: &mut [Answer],
) -> Chart<'b, 'p, 't, A, W>
    requires { length answers.old ≡ length calls.now }
    ensures says { map said answers.new ≡ chart_answers (binarised (closed_book book.now)).symbols (length weights.old) [] (map chart_call_of calls.now) }
    ensures kinds { map answer_kind answers.new ≡ map chart_kind (map chart_call_of calls.now) }
    ensures holds { HoldsAfter W.Weighing.ops A.Alphabet.test result (map chart_call_of calls.now) }
    ensures leaves { Leaves (closed_book book.now) W.Weighing.ops (closed_fits A.Alphabet.test book.now) (map chart_call_of calls.now) weights.old result.weights.now }
    ensures long { length result.weights.now ≡ length weights.old }
    ensures book { result.book.now ≡ book.now }
    ensures same { result.weights.ghost_name ≡ weights.entry.ghost_name }
{
    let mut chart = Chart::cut(book, weights);
    for (place, call) in calls.iter().enumerate() {
        answers[place] = call_chart(&mut chart, call);
    }
    chart
}
