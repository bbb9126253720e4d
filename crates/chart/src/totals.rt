// What the totals of the three weighings say. Three functions, and no trait: each has a promise of its own, and their one common
// step is the chart's total.
ghost use Rattle.std.specs.Prelude.{List};
ghost use Rattle.grammar.specs.Weighings.{yes_no};
ghost use Rattle.weighing.specs.Values.{counts, least_costs};
ghost use Rattle.chart.specs.Events.{Holds, chart_book, chart_fits, FitsByRelation};
ghost use Rattle.chart.specs.Totals.{Explained, CountsReadings, IsLeastCost};

use crate::chart::Chart;
use book::alphabet::Alphabet;
use weighing::kinds::{Count, LeastCost, YesNo};

// Whether there is a reading of the events held.
pub fn explained<A: Alphabet>(chart: &Chart<A, YesNo>) -> bool
    ensures means { (es : List A.Event) → Holds yes_no A.Alphabet.test chart.now es → Explained (chart_book chart.now) (chart_fits A.Alphabet.test chart.now) es result }
    ensures fits { FitsByRelation A.Alphabet.fits A.Alphabet.test chart.now }
{
    chart.total()
}

// How many plain readings of the events held there are; 4294967295 stands for this and more.
pub fn readings<A: Alphabet>(chart: &Chart<A, Count>) -> u32
    ensures means { (es : List A.Event) → Holds counts A.Alphabet.test chart.now es → CountsReadings (chart_book chart.now) (chart_fits A.Alphabet.test chart.now) 4294967295 es result }
    ensures fits { FitsByRelation A.Alphabet.fits A.Alphabet.test chart.now }
{
    let count = chart.total();
    count.value()
}

// What the cheapest plain reading of the events held costs; 4294967295 stands for none, or this and more.
pub fn least_cost<A: Alphabet>(chart: &Chart<A, LeastCost>) -> u32
    ensures means { (es : List A.Event) → Holds least_costs A.Alphabet.test chart.now es → IsLeastCost (chart_book chart.now) (chart_fits A.Alphabet.test chart.now) 4294967295 es result }
    ensures fits { FitsByRelation A.Alphabet.fits A.Alphabet.test chart.now }
{
    let cost = chart.total();
    cost.value()
}
