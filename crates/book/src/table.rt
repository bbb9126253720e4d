// A checked table of patterns, only read.
ghost use Rattle.std.specs.Prelude.{◌≤◌, length};

use crate::alphabet::Alphabet;

// Patterns, numbered from 0. A table is made only by a check, which refuses more than 32.
#[derive(Drop)]
pub struct PatternTable<'p, A: Alphabet> {
    pub(crate) patterns: &'p [A::Pattern],
    ghost few: { length patterns.now ≤ 32 },
}
