// What is printed of the readings of large tables and deep books.
use crate::case::Case;
use chart::node::Node;
use std::alloc::{AllocError, Global};

// How many nodes each rule has, from rule 0 on, a space before each.
fn rule_counts(heap: Global, nodes: &[Node]) -> Result<String, AllocError> {
    let mut out = String::new(heap);
    let rules = nodes.iter().map(|node| node.rule as usize + 1).max();
    for rule in 0..rules.unwrap_or(0) {
        let count = nodes
            .iter()
            .filter(|node| node.rule as usize == rule)
            .count();
        write!(out, " {count}")?;
    }
    Ok(out)
}

// A number that the order of the nodes and their parts enter: the parts in turn are the digits, to the base 31, less multiples of 2^32.
fn digest(nodes: &[Node]) -> u32 {
    let mut sum = 0u32;
    for node in nodes {
        for digit in [node.rule, node.first, node.count] {
            sum = sum.wrapping_mul(31).wrapping_add(digit as u32);
        }
    }
    sum
}

// The lines of a case.
pub(crate) fn large_lines(heap: Global, case: &Case) -> anyhow::Result<String> {
    let filled = case.filled(heap)?;
    let nodes = filled.written();
    let sound = if filled.is_sound() {
        ""
    } else {
        ", a node past a mark"
    };
    Ok(format!(in heap;
        "{case}, table {}: {}, {} written, {} untouched{sound}\n  of each rule:{}\n  digest {}\n",
        case.places,
        filled.answer,
        nodes.len(),
        filled.untouched(),
        rule_counts(heap, nodes)?,
        digest(nodes)
    )?)
}
