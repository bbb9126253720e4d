// A number of 32 bits that carries its bound, so that laws about it need no premise.
ghost use Rattle.std.specs.Prelude.{◌≡◌, ◌≤◌};

#[derive(Clone, Copy)]
pub struct Capped {
    n: u32,
    ghost top: { n ≤ 4294967295 },
}

impl From<u32> for Capped {
    ghost from_gives = { λ n capped. capped.n ≡ n };

    fn from(n: u32) -> Capped {
        Capped { n }
    }
}

impl From<Capped> for u32 {
    ghost from_gives = { λ capped n. n ≡ capped.n };

    fn from(capped: Capped) -> u32 {
        capped.n
    }
}

// The two conversions by name, where the type that is wanted is not plain from the place.
impl Capped {
    pub fn of(n: u32) -> Capped
        ensures { result.n ≡ n }
    {
        Capped::from(n)
    }

    pub fn value(self) -> u32
        ensures { result ≡ self.n }
    {
        u32::from(self)
    }
}
