// What is asked of productions: their parts, how many tails they take.
ghost use Rattle.std.specs.Prelude.{◌≡◌, ℕ, ◌<◌, ◌≤◌, ◌&&◌, [], map, length, take, MatchOption};
ghost use Rattle.grammar.specs.Productions.{all_tails, tails};
ghost use Rattle.conversion.specs.Rows.{production_of, written};

use crate::production::Production;

impl Production {
    // The production of head 0 with nothing on its right side, at no cost.
    pub fn empty() -> Production
        ensures { production_of result ≡ written 0 [] 0 }
    {
        Production {
            head: 0,
            len: 0,
            items: [0; 8],
            cost: 0,
        }
    }

    // The row of a production, or nothing where it has more than eight items.
    pub fn new(head: u8, items: &[u8], cost: u16) -> Option<Production>
        ensures { MatchOption result (8 < length items.now) (λ p. (production_of p ≡ written head items.now cost) × (length items.now ≤ 8)) }
    {
        if items.len() > 8 {
            return None;
        }
        let mut places = [0; 8];
        places[..items.len()].copy_from_slice(items);
        Some(Production {
            head,
            len: items.len() as u8,
            items: places,
            cost,
        })
    }

    pub fn head(&self) -> u8
        ensures { result ≡ (production_of self.now).head }
    {
        self.head
    }

    pub fn right(&self) -> &[u8]
        ensures { result.now ≡ (production_of self.now).right }
    {
        &self.items[..self.len as usize]
    }

    pub fn cost(&self) -> u16
        ensures { result ≡ (production_of self.now).cost }
    {
        self.cost
    }

    // How many tails its right side takes.
    pub fn tails(&self) -> usize
        ensures is { result ≡ tails (production_of self.now).right }
        ensures few { result ≤ 6 }
    {
        self.right().len().saturating_sub(2)
    }
}

// The production that an unused row holds.
impl Default for Production {
    ghost is_default = { λ p. production_of p ≡ written 0 [] 0 };

    fn default() -> Production {
        Production::empty()
    }
}

// How many tails all the productions take.
pub fn all_tails(productions: &[Production]) -> usize
    requires { length productions.now ≤ 64 }
    ensures { result ≡ all_tails (map production_of productions.now) }
{
    productions.iter().map(|p| p.tails()).sum()
}
