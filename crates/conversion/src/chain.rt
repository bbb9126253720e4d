// Unit steps and chosen chains.
ghost use Rattle.std.specs.Prelude.{◌≡◌, ℕ, ◌<◌, [], length, slice_index_or};

// What a unit step drops of a pair: the nullable right or left symbol.
#[derive(Clone, Copy)]
pub enum Dropped {
    Right(u8),
    Left(u8),
}

// A unit step from a symbol, by the rule of that number, to a symbol. That of a rule of one symbol drops nothing.
#[derive(Clone, Copy, Default)]
pub struct UnitStep {
    pub from: u8,
    pub number: u8,
    pub dropped: Option<Dropped>,
    pub to: u8,
}

// The chosen chain from one symbol to another (of the fewest steps; its first step the lowest that begins such a chain), by
// its length and its first step: the rest is the chosen chain from there.
#[derive(Clone, Copy)]
pub enum Chain {
    // from a symbol to itself
    Empty,
    // so many steps, and the first of them
    Steps(u8, UnitStep),
}

// The chosen chain from each symbol to each symbol, where one leads there. A table by symbol, so an array.
#[derive(Drop)]
pub struct Chains {
    pub(crate) links: [[Option<Chain>; 128]; 128],
    ghost rows: { length links ≡ 128 },
    ghost columns: { (x : ℕ) → x < 128 → length (slice_index_or links x []) ≡ 128 },
}
