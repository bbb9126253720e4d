ghost use Rattle.std.specs.Prelude.{◌≡◌, ℕ, ◌<◌, ◌≤◌, [], ◌∷◌, ◌++◌, length, take, slice_index};

// A rule as a line says it: head h is h, pattern t is 32 + t. Nine items stand for nine or more.
// The items are an array with a length, since the kit's vector of fixed capacity is not Copy and a rule line is.
// A type of its own beside conversion's row of a production: this crate knows nothing of that one, and its ninth item stands for more.
#[derive(Clone, Copy)]
pub struct RuleLine {
    head: u8,
    items: [u8; 9],
    len: usize,
    cost: u16,
    ghost sized: { length items ≡ 9 },
    ghost short: { len ≤ 9 },
    ghost named: { head ≤ 31 },
    ghost known: { (k : ℕ) → slice_index items k < 64 },
    ghost held: { cost ≤ 65535 },
}

impl RuleLine {
    // A head, with no items and cost 0.
    pub(crate) fn of(head: u8) -> RuleLine
        requires { head ≤ 31 }
        ensures head { result.head ≡ head }
        ensures right { take result.len result.items ≡ [] }
        ensures cost { result.cost ≡ 0 }
    {
        RuleLine {
            head,
            items: [0; 9],
            len: 0,
            cost: 0,
        }
    }

    pub fn head(&self) -> u8
        ensures { result ≡ self.now.head }
    {
        self.head
    }

    // The items of the right side.
    pub fn right(&self) -> &[u8]
        ensures { result.now ≡ take self.now.len self.now.items }
    {
        &self.items[0..self.len]
    }

    pub fn cost(&self) -> u16
        ensures { result ≡ self.now.cost }
    {
        self.cost
    }

    // One item more at the end; the tenth and further ones are dropped.
    pub(crate) fn with_item(self, item: u8) -> RuleLine
        requires { item < 64 }
        ensures head { result.head ≡ self.head }
        ensures right { take result.len result.items ≡ take 9 (take self.len self.items ++ (item ∷ [])) }
        ensures cost { result.cost ≡ self.cost }
    {
        if self.len >= 9 {
            return self;
        }
        let mut line = self;
        line.items[line.len] = item;
        line.len += 1;
        line
    }

    // Another cost. The toolchain refuses `RuleLine { cost, ..self }` where a struct has ghost fields.
    pub(crate) fn with_cost(self, cost: u16) -> RuleLine
        ensures head { result.head ≡ self.head }
        ensures right { take result.len result.items ≡ take self.len self.items }
        ensures cost { result.cost ≡ cost }
    {
        let mut line = self;
        line.cost = cost;
        line
    }
}
