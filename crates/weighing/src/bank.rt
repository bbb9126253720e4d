// A bank of values, as nested pairs.
ghost use Rattle.std.specs.Prelude.{◌≡◌, ℕ, ◌*◌, ◌/◌, ◌%◌, ◌<◌, if◌then◌else◌, nat_eq};

// A bank holds a value of any Copy type for each of its places (`Bank128`: for each of 128 symbols), as nested pairs,
// so that no array of a generic type is needed: the project sets this form. Even places lie in one half, odd places in the other.
pub trait Bank: Copy {
    type Value: Copy;

    // how many places there are
    ghost size: { ℕ };

    // what stands at a place
    ghost item: { Self → ℕ → Self.Value };

    // The same value at every place.
    fn all(v: Self::Value) -> Self
        ensures { (i : ℕ) → item result i ≡ v };

    // The value at a place; past the end, one that stands somewhere in the bank.
    fn get(&self, i: usize) -> Self::Value
        ensures { result ≡ item self.now i };

    // Writes one place and leaves the rest; past the end nothing changes.
    fn put(&mut self, i: usize, v: Self::Value)
        ensures { (j : ℕ) → j < size → item self.new j ≡ (if nat_eq j i then v else item self.old j) };
}

#[derive(Clone, Copy)]
pub struct One<V> {
    value: V,
}

impl<V: Copy> Bank for One<V> {
    type Value = V;

    ghost size = { 1 };

    ghost item = { λ b _. b.value };

    fn all(v: V) -> One<V> {
        One { value: v }
    }

    fn get(&self, _i: usize) -> V {
        self.value
    }

    fn put(&mut self, i: usize, v: V) {
        if i == 0 {
            self.value = v;
        }
    }
}

#[derive(Clone, Copy)]
pub struct Two<B> {
    even: B,
    odd: B,
}

impl<B: Bank> Bank for Two<B> {
    type Value = B::Value;

    ghost size = { 2 * B.Bank.size };

    ghost item = { λ b i. (if nat_eq (i % 2) 0 then B.Bank.item b.even (i / 2) else B.Bank.item b.odd (i / 2)) };

    fn all(v: B::Value) -> Two<B> {
        Two {
            even: B::all(v),
            odd: B::all(v),
        }
    }

    fn get(&self, i: usize) -> B::Value {
        if i % 2 == 0 {
            self.even.get(i / 2)
        } else {
            self.odd.get(i / 2)
        }
    }

    fn put(&mut self, i: usize, v: B::Value) {
        if i % 2 == 0 {
            self.even.put(i / 2, v);
        } else {
            self.odd.put(i / 2, v);
        }
    }
}

// A place for each of 128 symbols.
pub type Bank128<V> = Two<Two<Two<Two<Two<Two<Two<One<V>>>>>>>>;
