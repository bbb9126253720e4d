// A production in a row of fixed size.
ghost use Rattle.std.specs.Prelude.{◌≡◌, ◌≤◌, length};

// A production: its head, its right side (the first `len` of eight places), its cost.
// Places and a length, and no ArrayVec: a production is Copy.
#[derive(Clone, Copy)]
pub struct Production {
    pub(crate) head: u8,
    pub(crate) len: u8,
    pub(crate) items: [u8; 8],
    pub(crate) cost: u16,
    ghost wide: { length items ≡ 8 },
    ghost short: { len ≤ 8 },
}
