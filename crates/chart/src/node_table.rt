// The caller's table of nodes, written from its beginning.
ghost use Rattle.std.specs.Prelude.{◌≡◌, ◌-◌, false, List, [], ◌∷◌, ◌++◌, length};
ghost use Rattle.grammar.specs.Answers.{answer};
ghost use Rattle.grammar.specs.Nodes.{Node as TreeNode};
ghost use Rattle.chart.specs.Nodes.{node_of, nodes_of};
ghost use Rattle.chart.specs.Inner.{Wrote, room, SameTable};

use crate::fault::ReadingFault;
use crate::node::Node;

// So many nodes are written at most.
const NODES: usize = 65535;

// A table of nodes, how many are written in it, and whether there was one that found no room.
#[derive(Drop)]
pub(crate) struct NodeTable<'n> {
    pub(crate) nodes: &'n mut [Node],
    pub(crate) written: usize,
    pub(crate) full: bool,
}

impl<'n> NodeTable<'n> {
    ghost use Rattle.chart.specs.Readings.{reading_answer};

    // Nothing is written yet, and the table is left as it is.
    pub(crate) fn of(nodes: &'n mut [Node]) -> NodeTable<'n>
        ensures wrote { Wrote (nodes_of nodes.old) [] result }
        ensures table { result.nodes.now ≡ nodes.old }
        ensures same { result.nodes.ghost_name ≡ nodes.entry.ghost_name }
    {
        NodeTable {
            nodes,
            written: 0,
            full: false,
        }
    }

    // Writes a node after the others, or notes that there is no room for it. After that no node is handed on.
    pub(crate) fn push(&mut self, node: Node)
        requires { self.old.full ≡ false }
        ensures wrote { (t ks : List TreeNode) → Wrote t ks self.old → Wrote t (ks ++ (node_of node ∷ [])) self.new }
        ensures room { room self.new ≡ room self.old - 1 }
        ensures same { SameTable self.old self.new }
    {
        let place = self.written;
        if place < self.nodes.len().min(NODES) {
            self.nodes[place] = node;
            self.written = place + 1;
        } else {
            self.full = true;
        }
    }

    // How many nodes there are, or the refusal where one found no room.
    pub(crate) fn answer(&self) -> Result<Option<usize>, ReadingFault>
        ensures { (t ks : List TreeNode) → Wrote t ks self.now → reading_answer result ≡ answer ks (length t) }
    {
        if self.full {
            return Err(ReadingFault::TooManyNodes);
        }
        Ok(Some(self.written))
    }
}
