// The nodes of the derivation taken, written into the caller's table.
ghost use Rattle.std.specs.Prelude.{◌≡◌, ℕ, ◌+◌, ◌<◌, ◌≤◌, List, Some, ◌++◌};
ghost use Rattle.grammar.specs.Lists.{span};
ghost use Rattle.grammar.specs.Binarised.{Tree};
ghost use Rattle.grammar.specs.Nodes.{Node as TreeNode, tree_nodes};
ghost use Rattle.grammar.specs.Taken.{Takes};
ghost use Rattle.chart.specs.Events.{chart_symbols};
ghost use Rattle.chart.specs.Nodes.{node_of};
ghost use Rattle.chart.specs.Inner.{chart_rules, ForHeld, choice_number, ChoiceAt, ChoiceTaken, Wrote, SameTable, RuleOver, Stands, below_root};

use crate::blank_walk::{write_blank, write_blanks};
use crate::chart::Chart;
use crate::choice::{Choice, choose};
use crate::node::Node;
use crate::node_table::NodeTable;
use crate::symbols::{HEADS, TAILS};
use book::alphabet::Alphabet;
use conversion::chain::Dropped;
use weighing::kinds::YesNo;

// The node of a production over so many events from a start on.
fn node(number: u8, start: usize, count: usize) -> Node
    requires { start + count ≤ 256 }
    ensures { node_of result ≡ record { rule = number; first = start; count = count } }
{
    Node {
        rule: number as u16,
        first: start as u16,
        count: count as u16,
    }
}

// Writes the nodes of the derivation taken from a symbol over so many events from a start on: for a head its node, then those below;
// for a tail those below, which are those of the items that it stands for; for a pattern none. It ends where the table is full.
#[cycle(writer)]
pub(crate) fn write_symbol<A: Alphabet>(
    chart: &Chart<A, YesNo>,
    symbol: u8,
    items: &[u8],
    start: usize,
    count: usize,
    table: &mut NodeTable<'_>,
)
    requires symbol { symbol < chart_symbols chart.now }
    requires part { (0 < count) × (start + count ≤ chart.now.events) }
    ensures wrote { (t ks : List TreeNode) → Stands (chart_rules chart.now) symbol items.now → ForHeld chart.now (λ fits es. (s : Tree) → Takes (chart_rules chart.now) fits symbol s (span es start count) → Wrote t ks table.old → Wrote t (ks ++ tree_nodes start s) table.new) }
    ensures same { SameTable table.old table.new }
{
    if table.full {
        return;
    }
    if symbol >= HEADS && symbol < TAILS {
        return;
    }
    if let Some(choice) = choose(chart, symbol, start, count) {
        if symbol < HEADS {
            let rule = choice.number();
            table.push(node(rule, start, count));
            let right = chart.book.rules().right(rule);
            write_parts(chart, right, choice, start, count, table);
        } else {
            write_parts(chart, items, choice, start, count, table);
        }
    }
}

// Writes the nodes below a choice at a symbol that stands for these items.
#[cycle(writer)]
fn write_parts<A: Alphabet>(
    chart: &Chart<A, YesNo>,
    items: &[u8],
    choice: Choice,
    start: usize,
    count: usize,
    table: &mut NodeTable<'_>,
)
    requires choice { (x : ℕ) × ChoiceAt (chart_rules chart.now) x count (Some choice) }
    requires part { (0 < count) × (start + count ≤ chart.now.events) }
    ensures wrote { (t ks : List TreeNode) (x : ℕ) → ChoiceAt (chart_rules chart.now) x count (Some choice) → RuleOver (chart_rules chart.now) x (choice_number choice) items.now → ForHeld chart.now (λ fits es. (s : Tree) → Takes (chart_rules chart.now) fits x s (span es start count) → ChoiceTaken (chart_rules chart.now) fits x es start count (Some choice) → Wrote t ks table.old → Wrote t (ks ++ below_root start s) table.new) }
    ensures same { SameTable table.old table.new }
{
    let Some((_, rest)) = items.split_first() else {
        return;
    };
    let converted = chart.book.converted();
    match choice {
        Choice::Leaf(_) => {}
        Choice::Step(step) => match step.dropped {
            None => write_symbol(chart, step.to, rest, start, count, table),
            Some(dropped) => match dropped {
                Dropped::Right(_) => {
                    write_symbol(chart, step.to, &[], start, count, table);
                    write_blanks(converted, rest, (start + count) as u16, table);
                }
                Dropped::Left(left) => {
                    write_blank(converted, left, start as u16, table);
                    write_symbol(chart, step.to, rest, start, count, table);
                }
            },
        },
        Choice::Fork(_, left, right, cut) => {
            write_symbol(chart, left, &[], start, cut, table);
            write_symbol(chart, right, rest, start + cut, count - cut, table);
        }
    }
}
