// The reading of the events that a yes/no chart holds.
ghost use Rattle.std.specs.Prelude.{◌≡◌, List, length};
ghost use Rattle.chart.specs.Events.{Holds, chart_book, chart_fits, FitsByRelation};
ghost use Rattle.chart.specs.Nodes.{nodes_of};
ghost use Rattle.chart.specs.Readings.{reading_answer, ReadingIs};
ghost use Rattle.grammar.specs.Weighings.{yes_no};

use crate::blank_walk::write_blank;
use crate::chart::Chart;
use crate::fault::ReadingFault;
use crate::node::Node;
use crate::node_table::NodeTable;
use crate::totals::explained;
use crate::writer::write_symbol;
use book::alphabet::Alphabet;
use weighing::kinds::YesNo;

// Writes the nodes of the reading taken into the caller's table from its beginning: how many they are, or none where there is no
// reading; or the refusal, where they are more than the table takes.
pub fn reading<A: Alphabet>(
    chart: &Chart<A, YesNo>,
    nodes: &mut [Node],
) -> Result<Option<usize>, ReadingFault>
    ensures means { (es : List A.Event) → Holds yes_no A.Alphabet.test chart.now es → ReadingIs (chart_book chart.now) (chart_fits A.Alphabet.test chart.now) es (nodes_of nodes.old) (reading_answer result) (nodes_of nodes.new) }
    ensures fits { FitsByRelation A.Alphabet.fits A.Alphabet.test chart.now }
    ensures long { length nodes.new ≡ length nodes.old }
{
    if !explained(chart) {
        return Ok(None);
    }
    let mut table = NodeTable::of(nodes);
    if chart.events == 0 {
        write_blank(chart.book.converted(), 0, 0, &mut table);
    } else {
        write_symbol(chart, 0, &[], 0, chart.events, &mut table);
    }
    table.answer()
}
