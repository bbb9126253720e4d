// Binarised rules: each right side is empty, a symbol, a pair of symbols or a pattern.

// The right side of a binarised rule.
#[derive(Clone, Copy, Default)]
pub enum Right {
    // nothing
    #[default]
    Empty,
    // one symbol
    Unit(u8),
    // two symbols
    Binary(u8, u8),
    // an event that this pattern fits
    Terminal(u8),
}

// A binarised rule: the symbol that it is a rule of, the number of the production that it comes from (255 for the rule of a
// pattern's own symbol), its right side.
// The number is 255 and no Option: so the format numbers that rule.
#[derive(Clone, Copy, Default)]
pub struct BinarisedRule {
    pub left: u8,
    pub number: u8,
    pub right: Right,
}
