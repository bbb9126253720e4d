// How the derivation taken goes on at a symbol, over so many events from a start on: by the first strict rule that fits, then the
// shortest left part. All from the cells of a yes/no chart.
ghost use Rattle.std.specs.Prelude.{◌≡◌, ◌+◌, ◌<◌, ◌≤◌, true, ◌&&◌, Some, MatchOption, ◌==◌};
ghost use Rattle.grammar.specs.Lists.{Mem, span};
ghost use Rattle.grammar.specs.Strict.{strict_rules, strict_rules_of};
ghost use Rattle.grammar.specs.Taken.{yes_cell, cut_fits, rule_fits};
ghost use Rattle.conversion.specs.Views.{strict_rule_of};
ghost use Rattle.chart.specs.Events.{chart_symbols};
ghost use Rattle.chart.specs.Inner.{chart_rules, ForHeld, FirstRule, cut_after, FirstCut, CutsInside, FirstStep, choice_number, ChoiceAt, ChoiceTaken};

use crate::cells::{cell_place, peek};
use crate::chart::Chart;
use book::alphabet::Alphabet;
use conversion::chain::{Chain, UnitStep};
use conversion::right::Right;
use conversion::strict::StrictRule;
use weighing::kinds::YesNo;

// What the derivation taken has at a symbol.
#[derive(Clone, Copy)]
pub(crate) enum Choice {
    // a unit step, over the derivation taken from where it leads
    Step(UnitStep),
    // the production of that number, over one event
    Leaf(u8),
    // the production of that number, over a left and a right symbol, and how many events the left one has
    Fork(u8, u8, u8, usize),
}

impl Choice {
    // The number of the production.
    pub(crate) fn number(self) -> u8
        ensures { result ≡ choice_number self }
    {
        match self {
            Choice::Step(step) => step.number,
            Choice::Leaf(number) | Choice::Fork(number, _, _, _) => number,
        }
    }
}

// Whether a symbol has a derivation of so many events from a start on: the cell.
fn derives<A: Alphabet>(chart: &Chart<A, YesNo>, symbol: u8, start: usize, count: usize) -> bool
    requires symbol { symbol < chart_symbols chart.now }
    requires part { (0 < count) × (start + count ≤ chart.now.events) }
    ensures { ForHeld chart.now (λ fits es. result ≡ yes_cell (chart_rules chart.now) fits symbol (span es start count)) }
{
    let cell = cell_place(chart.book.symbols(), start + count, start);
    peek::<YesNo>(chart.weights, cell + symbol as usize)
}

// Whether the left symbol has a derivation of the events before a cut, and the right symbol one of those after it.
fn cut_fits<A: Alphabet>(
    chart: &Chart<A, YesNo>,
    left: u8,
    right: u8,
    start: usize,
    count: usize,
    cut: usize,
) -> bool
    requires symbols { (left < chart_symbols chart.now) × (right < chart_symbols chart.now) }
    requires part { start + count ≤ chart.now.events }
    requires cut { (0 < cut) × (cut < count) }
    ensures { ForHeld chart.now (λ fits es. result ≡ cut_fits (chart_rules chart.now) fits left right (cut_after es start count cut)) }
{
    derives(chart, left, start, cut) && derives(chart, right, start + cut, count - cut)
}

// The first cut that fits, by the number of events on the left.
fn first_cut<A: Alphabet>(
    chart: &Chart<A, YesNo>,
    left: u8,
    right: u8,
    start: usize,
    count: usize,
) -> Option<usize>
    requires symbols { (left < chart_symbols chart.now) × (right < chart_symbols chart.now) }
    requires part { (0 < count) × (start + count ≤ chart.now.events) }
    ensures inside { CutsInside count result }
    ensures first { ForHeld chart.now (λ fits es. FirstCut (chart_rules chart.now) fits left right es start count result) }
{
    for cut in 1..count {
        if cut_fits(chart, left, right, start, count, cut) {
            return Some(cut);
        }
    }
    None
}

// Whether the events are one event, of which a pattern's own symbol has a derivation: so that the pattern fits it. The events themselves
// are not stored.
fn pattern_fits<A: Alphabet>(
    chart: &Chart<A, YesNo>,
    pattern: u8,
    start: usize,
    count: usize,
) -> bool
    requires pattern { (pattern < 32) × (32 + pattern < chart_symbols chart.now) }
    requires part { (0 < count) × (start + count ≤ chart.now.events) }
    ensures { ForHeld chart.now (λ fits es. result ≡ (count == 1 && yes_cell (chart_rules chart.now) fits (32 + pattern) (span es start count))) }
{
    count == 1 && derives(chart, 32 + pattern, start, count)
}

// Whether a strict rule fits the events: its pattern the only one, or its two symbols the parts of a cut.
fn rule_fits<A: Alphabet>(
    chart: &Chart<A, YesNo>,
    rule: StrictRule,
    start: usize,
    count: usize,
) -> bool
    requires rule { Mem (strict_rule_of rule) (strict_rules (chart_rules chart.now)) }
    requires part { (0 < count) × (start + count ≤ chart.now.events) }
    ensures { ForHeld chart.now (λ fits es. result ≡ rule_fits (chart_rules chart.now) fits (span es start count) (strict_rule_of rule)) }
{
    match rule.right {
        Right::Terminal(t) => pattern_fits(chart, t, start, count),
        Right::Binary(y, z) => first_cut(chart, y, z, start, count).is_some(),
        Right::Empty | Right::Unit(_) => false,
    }
}

// Whether a strict rule is one of the symbol and fits the events.
fn fits_at<A: Alphabet>(
    chart: &Chart<A, YesNo>,
    rule: StrictRule,
    symbol: u8,
    start: usize,
    count: usize,
) -> bool
    requires rule { Mem (strict_rule_of rule) (strict_rules (chart_rules chart.now)) }
    requires part { (0 < count) × (start + count ≤ chart.now.events) }
    ensures symbol { result ≡ true → rule.symbol ≡ symbol }
    ensures fits { ForHeld chart.now (λ fits es. result ≡ (rule.symbol == symbol && rule_fits (chart_rules chart.now) fits (span es start count) (strict_rule_of rule))) }
{
    rule.symbol == symbol && rule_fits(chart, rule, start, count)
}

// The first strict rule of a symbol that fits the events.
fn first_rule<A: Alphabet>(
    chart: &Chart<A, YesNo>,
    symbol: u8,
    start: usize,
    count: usize,
) -> Option<StrictRule>
    requires symbol { symbol < chart_symbols chart.now }
    requires part { (0 < count) × (start + count ≤ chart.now.events) }
    ensures rule { MatchOption result (Unit {0}) (λ r. Mem (strict_rule_of r) (strict_rules_of (chart_rules chart.now) symbol)) }
    ensures first { ForHeld chart.now (λ fits es. FirstRule (chart_rules chart.now) fits symbol (span es start count) result) }
{
    for rule in chart.book.converted().strict() {
        if fits_at(chart, *rule, symbol, start, count) {
            return Some(*rule);
        }
    }
    None
}

// The first step of the chosen chain to the end of a strict rule, or none where the rule is the symbol's own.
fn first_step<A: Alphabet>(
    chart: &Chart<A, YesNo>,
    symbol: u8,
    rule: StrictRule,
) -> Option<UnitStep>
    requires { Mem (strict_rule_of rule) (strict_rules_of (chart_rules chart.now) symbol) }
    ensures { FirstStep (chart_rules chart.now) symbol rule.end result }
{
    match chart.book.converted().chain(symbol, rule.end) {
        Some(Chain::Steps(_, step)) => Some(step),
        Some(Chain::Empty) | None => None,
    }
}

// What a strict rule that fits has at its end, after its chain: a leaf, or the fork of the first cut.
fn own_rule<A: Alphabet>(
    chart: &Chart<A, YesNo>,
    rule: StrictRule,
    start: usize,
    count: usize,
) -> Option<Choice>
    requires rule { Mem (strict_rule_of rule) (strict_rules_of (chart_rules chart.now) rule.end) }
    requires part { (0 < count) × (start + count ≤ chart.now.events) }
    ensures at { ChoiceAt (chart_rules chart.now) rule.end count result }
    ensures taken { ForHeld chart.now (λ fits es. FirstRule (chart_rules chart.now) fits rule.end (span es start count) (Some rule) → ChoiceTaken (chart_rules chart.now) fits rule.end es start count result) }
{
    match rule.right {
        Right::Terminal(_) => Some(Choice::Leaf(rule.number)),
        Right::Binary(y, z) => {
            let cut = first_cut(chart, y, z, start, count)?;
            Some(Choice::Fork(rule.number, y, z, cut))
        }
        Right::Empty | Right::Unit(_) => None,
    }
}

// How the derivation taken goes on at a symbol, over so many events from a start on; none where there is no derivation.
pub(crate) fn choose<A: Alphabet>(
    chart: &Chart<A, YesNo>,
    symbol: u8,
    start: usize,
    count: usize,
) -> Option<Choice>
    requires symbol { symbol < chart_symbols chart.now }
    requires part { (0 < count) × (start + count ≤ chart.now.events) }
    ensures at { ChoiceAt (chart_rules chart.now) symbol count result }
    ensures taken { ForHeld chart.now (λ fits es. ChoiceTaken (chart_rules chart.now) fits symbol es start count result) }
{
    let rule = first_rule(chart, symbol, start, count)?;
    match first_step(chart, symbol, rule) {
        Some(step) => Some(Choice::Step(step)),
        None => own_rule(chart, rule, start, count),
    }
}
