// How answers and readings are printed.
ghost use Rattle.std.specs.Prelude.{◌≡◌, ◌++◌, map, take, OnOk, string_bytes};
ghost use Rattle.grammar.specs.Lists.{each};
ghost use Rattle.chart.specs.Nodes.{node_of, nodes_of};
ghost use Rattle.chart.specs.Readings.{reading_answer};
ghost use Rattle.replay.specs.Answers.{said};
ghost use Rattle.programs.specs.Printed.{node_text, reading_text, answer_text, standing};

use chart::fault::ReadingFault;
use chart::node::Node;
use replay::answer::Answer;
use std::alloc::AllocError;

// So many nodes are written at most.
const NODES: usize = 65_535;

// Adds a line for each answer.
pub(crate) fn push_answers(out: &mut String, answers: &[Answer]) -> Result<(), AllocError>
    ensures { OnOk result (string_bytes out.new ≡ string_bytes out.old ++ each answer_text (map said answers.now)) }
{
    for answer in answers {
        writeln!(out, "{answer}")?;
    }
    Ok(())
}

// Adds a line for each node: its rule, its first event, and how many events it has.
fn push_nodes(out: &mut String, nodes: &[Node]) -> Result<(), AllocError>
    ensures { OnOk result (string_bytes out.new ≡ string_bytes out.old ++ each node_text (nodes_of nodes.now)) }
{
    for node in nodes {
        writeln!(out, "{} {} {}", node.rule, node.first, node.count)?;
    }
    Ok(())
}

// The first nodes of a table, so many or all.
fn front(nodes: &[Node], count: usize) -> &[Node]
    ensures { nodes_of result.now ≡ take count (nodes_of nodes.now) }
{
    if count < nodes.len() {
        &nodes[..count]
    } else {
        nodes
    }
}

// Adds what the call for the reading answered, and the nodes that stand in the table: all, or those before the refusal.
pub(crate) fn push_reading(
    out: &mut String,
    reading: Result<Option<usize>, ReadingFault>,
    nodes: &[Node],
) -> Result<(), AllocError>
    ensures { OnOk result (string_bytes out.new ≡ string_bytes out.old ++ reading_text (reading_answer reading) (standing (reading_answer reading) (nodes_of nodes.now))) }
{
    match reading {
        Ok(None) => writeln!(out, "none"),
        Ok(Some(count)) => {
            writeln!(out, "nodes {count}")?;
            push_nodes(out, front(nodes, count))
        }
        Err(fault) => {
            writeln!(out, "refused {}", fault.number())?;
            push_nodes(out, front(nodes, NODES))
        }
    }
}
