// The nodes of parts without events.
ghost use Rattle.std.specs.Prelude.{◌≡◌, ◌<◌, true, false, List, ◌++◌, MatchOption};
ghost use Rattle.grammar.specs.Productions.{right_of};
ghost use Rattle.grammar.specs.Binarise.{binarised};
ghost use Rattle.grammar.specs.Nullable.{nullable, nullable_tree};
ghost use Rattle.grammar.specs.Nodes.{Node as TreeNode, tree_nodes};
ghost use Rattle.conversion.specs.Held.{Brings};
ghost use Rattle.book.specs.Rules.{rules_book};
ghost use Rattle.chart.specs.Nodes.{node_of};
ghost use Rattle.chart.specs.Inner.{Wrote, SameTable, blank_nodes, AllBlank};

use crate::node::Node;
use crate::node_table::NodeTable;
use crate::symbols::HEADS;
use book::converted::Converted;
use conversion::nullable::Brought;

// What brought a head in, if it is nullable. No other item is.
fn brought_head(converted: &Converted, item: u8) -> Option<Brought>
    ensures { MatchOption result (item < 32 → nullable (binarised (rules_book converted.now.rules)) item ≡ false) (λ by. (item < 32) × Brings (binarised (rules_book converted.now.rules)) item by) }
{
    if item < HEADS {
        converted.brought(item)
    } else {
        None
    }
}

// The items of the rule that brought a symbol in.
fn items_of(converted: &Converted, by: Brought) -> &[u8]
    ensures { result.now ≡ right_of (rules_book converted.now.rules) by.number }
{
    converted.rules().right(by.number)
}

// The node of a rule over no event, with so many events before it.
fn blank_node(number: u8, at: u16) -> Node
    ensures { node_of result ≡ record { rule = number; first = at; count = 0 } }
{
    Node {
        rule: number as u16,
        first: at,
        count: 0,
    }
}

// Writes the nodes of the chosen derivations of nothing of these items, in turn: of each the node of its chosen rule, then those of that
// rule's items. It ends where the table is full, whatever is left.
pub(crate) fn write_blanks(converted: &Converted, items: &[u8], at: u16, table: &mut NodeTable<'_>)
    ensures wrote { (t ks : List TreeNode) → AllBlank (binarised (rules_book converted.now.rules)) items.now → Wrote t ks table.old → Wrote t (ks ++ blank_nodes (binarised (rules_book converted.now.rules)) at items.now) table.new }
    ensures same { SameTable table.old table.new }
{
    for item in items {
        if table.full {
            return;
        }
        if let Some(by) = brought_head(converted, *item) {
            table.push(blank_node(by.number, at));
            write_blanks(converted, items_of(converted, by), at, table);
        }
    }
}

// Writes the nodes of the chosen derivation of nothing of a nullable head.
pub(crate) fn write_blank(converted: &Converted, head: u8, at: u16, table: &mut NodeTable<'_>)
    ensures wrote { (t ks : List TreeNode) → head < 32 → nullable (binarised (rules_book converted.now.rules)) head ≡ true → Wrote t ks table.old → Wrote t (ks ++ tree_nodes at (nullable_tree (binarised (rules_book converted.now.rules)) head)) table.new }
    ensures same { SameTable table.old table.new }
{
    write_blanks(converted, &[head], at, table);
}
