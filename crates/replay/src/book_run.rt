// A book's calls, one after the other.
ghost use Rattle.std.specs.Prelude.{◌≡◌, [], length, map, fold};
ghost use Rattle.book.specs.Books.{open_held, closed_held};
ghost use Rattle.book.specs.Runs.{after, held_after};
ghost use Rattle.replay.specs.Calls.{call_of};
ghost use Rattle.replay.specs.Answers.{said, book_answer, book_answers, answer_kind, book_kind};

use crate::answer::Answer;
use crate::call::BookCall;
use book::alphabet::Alphabet;
use book::books::{ClosedBook, OpenBook};
use book::table::PatternTable;

// One call, with its answer.
fn call_book<A: Alphabet>(book: &mut OpenBook<A>, call: &BookCall) -> Answer
    ensures says { said result ≡ book_answer (length book.old.table.patterns.now) (open_held book.old) (call_of call.now) }
    ensures kind { answer_kind result ≡ book_kind (call_of call.now) }
    ensures after { open_held book.new ≡ after (length book.old.table.patterns.now) (open_held book.old) (call_of call.now) }
    ensures table { book.new.table ≡ book.old.table }
{
    match *call {
        BookCall::Offer { head, items, cost } => Answer::Offered(book.offer(head, items, cost)),
        BookCall::Load(text) => Answer::Loaded(book.load(text)),
        BookCall::Strike => Answer::Struck(book.strike()),
    }
}

// The calls in turn, each answer in its place.
fn call_all<A: Alphabet>(book: &mut OpenBook<A>, calls: &[BookCall], answers: &mut [Answer])
    requires { length answers.old ≡ length calls.now }
    ensures says { map said answers.new ≡ book_answers (length book.old.table.patterns.now) (open_held book.old) (map call_of calls.now) }
    ensures kinds { map answer_kind answers.new ≡ map book_kind (map call_of calls.now) }
    ensures after { open_held book.new ≡ fold (after (length book.old.table.patterns.now)) (open_held book.old) (map call_of calls.now) }
    ensures table { book.new.table ≡ book.old.table }
{
    for (place, call) in calls.iter().enumerate() {
        answers[place] = call_book(book, call);
    }
}

// The closed book that the calls lead to from a new one, each answer in its place.
pub(crate) fn run_book<'p, A: Alphabet>(
    table: PatternTable<'p, A>,
    calls: &[BookCall],
    answers: &mut [Answer],
) -> ClosedBook<'p, A>
    requires { length answers.old ≡ length calls.now }
    ensures says { map said answers.new ≡ book_answers (length table.entry.patterns.now) [] (map call_of calls.now) }
    ensures kinds { map answer_kind answers.new ≡ map book_kind (map call_of calls.now) }
    ensures held { closed_held result ≡ held_after (length table.entry.patterns.now) (map call_of calls.now) }
    ensures table { result.table.patterns.now ≡ table.entry.patterns.now }
{
    let mut book = OpenBook::new(table);
    call_all(&mut book, calls, answers);
    book.close()
}
