// Nodes of a reading, as they stand in a caller's table.

// A node: the number of its rule, its first event (from 0), and how many events it has. The first event of a node without events is the
// number of events before it.
#[derive(Clone, Copy, PartialEq, Eq, Debug)]
pub struct Node {
    pub rule: u16,
    pub first: u16,
    pub count: u16,
}
