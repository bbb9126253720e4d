// Chosen chains by rounds: round k finds the pairs of symbols whose shortest chain has k steps.
ghost use Rattle.std.specs.Prelude.{◌≡◌, ℕ, suc, ◌<◌, ◌≤◌, false, not, ◌&&◌, [], map, if◌then◌else◌, is_some, Some, None, ◌==◌, nat_eq, slice_index_or};
ghost use Rattle.grammar.specs.Binarised.{Binarised};
ghost use Rattle.conversion.specs.Binarised.{grammar_of};
ghost use Rattle.conversion.specs.Held.{Nullables};
ghost use Rattle.conversion.specs.Linked.{ChainsWithin, link};
ghost use Rattle.conversion.specs.Rounds.{EndsBelow, all_steps, shorter};
ghost use Rattle.conversion.specs.Views.{step_of};

use crate::binarised::BinarisedRules;
use crate::chain::{Chain, Chains, UnitStep};
use crate::nullable::Nullable;
use crate::steps::unit_steps;

impl Chains {
    // From each symbol to itself, and nowhere else.
    fn start() -> Chains
        ensures { (x y : ℕ) → x < 128 → y < 128 → link result x y ≡ (if nat_eq x y then Some Chain.Empty else None) }
    {
        let mut out = Chains {
            links: [[None; 128]; 128],
        };
        for x in 0..128 {
            out.put(x, x, Chain::Empty);
        }
        out
    }

    // The chosen chain from one symbol to another, if one leads there.
    pub(crate) fn get(&self, from: u8, to: u8) -> Option<Chain>
        ensures { result ≡ slice_index_or (slice_index_or self.now.links from []) to None }
    {
        *self.links.get(from as usize)?.get(to as usize)?
    }

    // The chosen chain from one symbol to another is found.
    // A test of the bounds, and no get_mut: after that the proof has no name for the table.
    fn put(&mut self, from: u8, to: u8, chain: Chain)
        ensures { (x y : ℕ) → x < 128 → y < 128 → link self.new x y ≡ (if nat_eq x from && y == to then Some chain else link self.old x y) }
    {
        if from < 128 && to < 128 {
            self.links[from as usize][to as usize] = Some(chain);
        }
    }

    // Whether a chain leads from one symbol to another.
    pub(crate) fn reaches(&self, from: u8, to: u8) -> bool
        ensures { result ≡ is_some (link self.now from to) }
    {
        self.get(from, to).is_some()
    }

    // Whether a chain of fewer steps than these leads there.
    fn within(&self, from: u8, to: u8, steps: u8) -> bool
        ensures { result ≡ shorter steps (link self.now from to) }
    {
        match self.get(from, to) {
            None => false,
            Some(Chain::Empty) => steps > 0,
            Some(Chain::Steps(k, _)) => k < steps,
        }
    }

    // The chains of so many steps that begin with this step. Whether there was a new one.
    fn extend(&mut self, step: UnitStep, steps: u8) -> bool
        ensures more { (x y : ℕ) → x < 128 → y < 128 → link self.new x y ≡ (if step.from == x && (not (is_some (link self.old x y)) && shorter steps (link self.old step.to y)) then Some (Chain.Steps steps step) else link self.old x y) }
        ensures rest { result ≡ false → self.new.links ≡ self.old.links }
    {
        let mut grew = false;
        for y in 0..128 {
            // & and no &&, so that the proof has one test to follow
            if !self.reaches(step.from, y) & self.within(step.to, y, steps) {
                self.put(step.from, y, Chain::Steps(steps, step));
                grew = true;
            }
        }
        grew
    }

    // The chains of so many steps: the first step in the list that begins one begins the chosen one.
    fn round(&mut self, list: &[UnitStep], steps: u8) -> bool
        ensures more { (B : Binarised) (j : ℕ) → steps ≡ suc j → B.symbols ≤ 128 → EndsBelow B → map step_of list.now ≡ all_steps B → ChainsWithin B j self.old → ChainsWithin B steps self.new }
        ensures rest { result ≡ false → self.new.links ≡ self.old.links }
    {
        let mut grew = false;
        for step in list {
            grew |= self.extend(*step, steps);
        }
        grew
    }
}

// The chosen chains of binarised rules. A shortest chain passes no symbol twice, so it has fewer than 128 steps.
// The rounds end as those of the nullable symbols do: two loops, and no function for both, since each keeps a fact of its own.
pub(crate) fn chains(binarised: &BinarisedRules, nullable: &Nullable) -> Chains
    requires nullables { Nullables (grammar_of binarised.now) nullable.now }
    requires ends { EndsBelow (grammar_of binarised.now) }
    ensures { ChainsWithin (grammar_of binarised.now) (grammar_of binarised.now).symbols result }
{
    let list = unit_steps(binarised, nullable);
    let mut out = Chains::start();
    for steps in 1..128 {
        if !out.round(&list, steps) {
            break;
        }
    }
    out
}
