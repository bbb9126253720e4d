// Strict rules, each with its weight.
use arrayvec::ArrayVec;
use conversion::strict::StrictRule;
use std::default::MadeWith;

// A strict rule and its weight.
#[derive(Clone, Copy)]
pub(crate) struct WeighedRule<V> {
    pub(crate) rule: StrictRule,
    pub(crate) weight: V,
}

// What lies in a place that holds no rule. By hand, as that of a pair: the zero is handed in.
impl<V: Copy> MadeWith<V> for WeighedRule<V> {
    fn made_with(zero: V) -> WeighedRule<V> {
        WeighedRule {
            rule: StrictRule::default(),
            weight: zero,
        }
    }
}

// At most as many as a book has.
pub(crate) type WeighedRules<V> = ArrayVec<WeighedRule<V>, 1024, V>;
