// The calls of open and closed books.
ghost use Rattle.std.specs.Prelude.{◌≡◌, ◌≤◌, T, [], length};
ghost use Rattle.conversion.specs.Rows.{production_of, written};
ghost use Rattle.book.specs.Books.{open_held, closed_held, closed_book, closed_strict, closed_fits, StrictRulesAre, At};
ghost use Rattle.grammar.specs.Binarise.{binarised};
ghost use Rattle.grammar.specs.Strict.{strict_rules};
ghost use Rattle.conversion.specs.Views.{strict_rule_of};
ghost use Rattle.book.specs.Fits.{TestsTable, IsFitAnswer};
ghost use Rattle.book.specs.Loads.{load, load_is, LoadMeans};
ghost use Rattle.book.specs.Offers.{Offered};
ghost use Rattle.book.specs.Rules.{held};
ghost use Rattle.book.specs.Runs.{an_offer, a_load, a_strike, held_after, RunsOn, Leaves};
ghost use Rattle.book.specs.Strikes.{Struck};

use crate::alphabet::Alphabet;
use crate::books::{ClosedBook, OpenBook};
use crate::converted::Converted;
use crate::fault::{LoadFault, OfferFault, StrikeFault};
use crate::rules::Rules;
use crate::table::PatternTable;
use conversion::form::StrictForm;
use conversion::production::Production;
use conversion::strict::StrictRule;

impl<'p, A: Alphabet> OpenBook<'p, A> {
    // A book over a table of patterns, with no rule.
    pub fn new(table: PatternTable<'p, A>) -> OpenBook<'p, A>
        ensures none { open_held result ≡ [] }
        ensures table { result.table.patterns.now ≡ table.entry.patterns.now }
        ensures runs { held_after (length table.entry.patterns.now) [] ≡ open_held result }
    {
        let rules = Rules::none(table.count());
        OpenBook { table, rules }
    }

    // Offers a rule: its number, or the refusal.
    pub fn offer(&mut self, head: u8, items: &[u8], cost: u16) -> Result<usize, OfferFault>
        ensures says { Offered (length self.old.table.patterns.now) held (written head items.now cost) self.old.rules self.new.rules result }
        ensures table { self.new.table ≡ self.old.table }
        ensures runs { RunsOn (length self.old.table.patterns.now) (an_offer head items.now cost) (open_held self.old) (open_held self.new) }
    {
        self.rules.offer(head, items, cost)
    }

    // Offers the rules of a text in turn, up to the first line that is refused: how many lines were offered, or the refusal.
    pub fn load(&mut self, text: &[u8]) -> Result<usize, LoadFault>
        ensures is { load_is (open_held self.new) result ≡ load (length self.old.table.patterns.now) (open_held self.old) text.now }
        ensures means { LoadMeans (length self.old.table.patterns.now) (open_held self.old) text.now }
        ensures table { self.new.table ≡ self.old.table }
        ensures runs { RunsOn (length self.old.table.patterns.now) (a_load text.now) (open_held self.old) (open_held self.new) }
    {
        self.rules.load(text)
    }

    // Takes the last rule away: how many remain, or the refusal.
    pub fn strike(&mut self) -> Result<usize, StrikeFault>
        ensures says { Struck held self.old.rules self.new.rules result }
        ensures table { self.new.table ≡ self.old.table }
        ensures runs { RunsOn (length self.old.table.patterns.now) a_strike (open_held self.old) (open_held self.new) }
    {
        self.rules.strike()
    }

    // Ends the open book: a closed book that holds the same rules, with their strict form.
    pub fn close(self) -> ClosedBook<'p, A>
        ensures held { closed_held result ≡ open_held self.entry }
        ensures strict { StrictRulesAre A.Event (closed_book result) (closed_strict result) }
        ensures table { result.table ≡ self.entry.table }
        ensures runs { Leaves (length self.entry.table.patterns.now) (open_held self.entry) (closed_held result) }
    {
        let OpenBook { table, rules } = self;
        let converted = rules.convert();
        ClosedBook { table, converted }
    }
}

impl<'p, A: Alphabet> ClosedBook<'p, A> {
    // The number of symbols, by which a caller sizes a chart's table.
    pub fn symbols(&self) -> usize
        ensures is { result ≡ self.now.converted.form.binarised.symbols }
        ensures means { result ≡ (binarised (closed_book self.now)).symbols }
        ensures least { 64 ≤ result }
        ensures most { result ≤ 128 }
    {
        self.converted.symbols()
    }

    // How many rules are held.
    pub fn rule_count(&self) -> usize
        ensures { result ≡ length (closed_held self.now) }
    {
        self.converted.rules.rows.len()
    }

    // The rule of that number, if there is one.
    pub fn rule(&self, number: usize) -> Option<Production>
        ensures { At production_of (closed_held self.now) number result }
    {
        self.converted.rules.rows.get(number).copied()
    }

    // How many strict rules there are.
    pub fn strict_count(&self) -> usize
        ensures { result ≡ length (strict_rules (binarised (closed_book self.now))) }
    {
        self.converted.strict().len()
    }

    // The strict rule in that place of their order, if there is one.
    pub fn strict_rule(&self, place: usize) -> Option<StrictRule>
        ensures { At strict_rule_of (strict_rules (binarised (closed_book self.now))) place result }
    {
        self.converted.strict().get(place).copied()
    }

    // The rules held with their strict form, for charts.
    pub fn converted(&self) -> &Converted
        ensures { result.now ≡ self.now.converted }
    {
        &self.converted
    }

    // The strict form, for charts.
    pub fn form(&self) -> &StrictForm
        ensures { result.now ≡ self.now.converted.form }
    {
        self.converted.form()
    }

    // The rules held, for charts.
    pub fn rules(&self) -> &Rules
        ensures { result.now ≡ self.now.converted.rules }
    {
        self.converted.rules()
    }

    // Whether there is a pattern of that number and it fits the event. The test of the book says so of every number and event.
    pub fn fits(&self, number: u8, event: A::Event) -> bool
        ensures answer { IsFitAnswer A.Alphabet.fits A.Alphabet.test self.now.table.patterns.now number event result }
        ensures tested { TestsTable A.Alphabet.fits self.now.table.patterns.now (closed_fits A.Alphabet.test self.now) }
    {
        self.table.fits(number, event)
    }
}
