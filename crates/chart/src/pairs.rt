// The strict pairs over a right part.
use arrayvec::ArrayVec;
use std::default::MadeWith;

// A strict pair over a right part: its symbol, the symbol of its left part, and its weight times that of the right part.
#[derive(Clone, Copy)]
pub(crate) struct Pair<V> {
    pub(crate) symbol: u8,
    pub(crate) left: u8,
    pub(crate) weight: V,
}

// What lies in a place that holds no pair. By hand, since a weighing's values have no default but the zero that is handed in.
impl<V: Copy> MadeWith<V> for Pair<V> {
    fn made_with(zero: V) -> Pair<V> {
        Pair {
            symbol: 0,
            left: 0,
            weight: zero,
        }
    }
}

// At most one pair for each strict rule.
pub(crate) type Pairs<V> = ArrayVec<Pair<V>, 1024, V>;
