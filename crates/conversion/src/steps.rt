// Unit steps: from a symbol to another by a rule of one symbol, or by a pair whose other symbol is nullable.
ghost use Rattle.std.specs.Prelude.{◌≡◌, ◌+◌, ◌<◌, ◌≤◌, ◌++◌, map, is_some, None, slice_index_or};
ghost use Rattle.arrayvec.specs.ArrayVec.{array_vec_len};
ghost use Rattle.grammar.specs.Chains.{unit_step, steps_by};
ghost use Rattle.conversion.specs.Binarised.{grammar_of};
ghost use Rattle.conversion.specs.Held.{Nullables};
ghost use Rattle.conversion.specs.Rounds.{all_steps};
ghost use Rattle.conversion.specs.Views.{right_side_of, drop_of, step_of};

use crate::binarised::BinarisedRules;
use crate::chain::{Dropped, UnitStep};
use crate::nullable::Nullable;
use crate::right::{BinarisedRule, Right};
use arrayvec::ArrayVec;

impl BinarisedRule {
    // The unit step by this rule to a symbol.
    fn step(&self, dropped: Option<Dropped>, to: u8) -> UnitStep
        ensures { step_of result ≡ unit_step self.now.left self.now.number (drop_of dropped) to }
    {
        UnitStep {
            from: self.left,
            number: self.number,
            dropped,
            to,
        }
    }

    // The steps of one rule: of a pair the left symbol kept comes before the right kept.
    fn steps(&self, nullable: &Nullable, out: &mut ArrayVec<UnitStep, 320>)
        requires { array_vec_len out.old < 319 }
        ensures more { map step_of out.new.items ≡ map step_of out.old.items ++ steps_by (λ x. is_some (slice_index_or nullable.now.brought x None)) self.now.left self.now.number (right_side_of self.now.right) }
        ensures few { array_vec_len out.new ≤ array_vec_len out.old + 2 }
    {
        match self.right {
            Right::Unit(y) => out.push(self.step(None, y)),
            Right::Binary(y, z) => {
                if nullable.holds(z) {
                    out.push(self.step(Some(Dropped::Right(z)), y));
                }
                if nullable.holds(y) {
                    out.push(self.step(Some(Dropped::Left(y)), z));
                }
            }
            Right::Empty | Right::Terminal(_) => {}
        }
    }
}

// The unit steps of binarised rules: at most 160 rules, each with at most two steps.
pub(crate) fn unit_steps(binarised: &BinarisedRules, nullable: &Nullable) -> ArrayVec<UnitStep, 320>
    requires { Nullables (grammar_of binarised.now) nullable.now }
    ensures { map step_of result.items ≡ all_steps (grammar_of binarised.now) }
{
    let mut out = ArrayVec::new();
    for rule in binarised.rules.iter() {
        rule.steps(nullable, &mut out);
    }
    out
}
