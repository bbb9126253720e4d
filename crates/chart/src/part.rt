// The events of a node.
ghost use Rattle.std.specs.Prelude.{◌≡◌, ◌+◌, ◌<◌, ◌≤◌, length, MatchResult};
ghost use Rattle.grammar.specs.Lists.{span};
ghost use Rattle.chart.specs.Faults.{part_number};

use crate::fault::PartFault;
use crate::node::Node;

// The events that a node stands over: a part of the trace itself, unless the node ends past the trace.
pub fn part<E>(trace: &[E], node: Node) -> Result<&[E], PartFault>
    ensures { MatchResult result (λ events. (node.first + node.count ≤ length trace.now) × (events.now ≡ span trace.now node.first node.count)) (λ fault. (length trace.now < node.first + node.count) × (part_number fault ≡ 14)) }
{
    let from = node.first as usize;
    let to = from + node.count as usize;
    trace.get(from..to).ok_or(PartFault::PastTheTrace)
}
