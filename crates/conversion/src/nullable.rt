// The nullable symbols.
ghost use Rattle.std.specs.Prelude.{◌≡◌, length};

use crate::right::Right;

// What brought a symbol in: the round, and the chosen rule by its number and right side.
#[derive(Clone, Copy)]
pub struct Brought {
    pub round: u8,
    pub number: u8,
    pub right: Right,
}

// For each symbol what brought it in; a symbol that nothing brought in is not nullable. A table by symbol, so an array.
#[derive(Drop)]
pub struct Nullable {
    pub(crate) brought: [Option<Brought>; 128],
    ghost sized: { length brought ≡ 128 },
}
