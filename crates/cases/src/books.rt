// Books of stored cases.
ghost use Rattle.std.specs.Prelude.{◌≡◌, ◌≤◌, ℕ, List, [], length, IfOk, IsOk};
ghost use Rattle.book.specs.Books.{open_held};
ghost use Rattle.book.specs.Loads.{load, taken};

use book::alphabet::Alphabet;
use book::books::OpenBook;
use book::table::PatternTable;

// A book over these patterns that holds the rules of a text, and how many lines were offered.
pub fn loaded<'p, A: Alphabet>(
    patterns: &'p [A::Pattern],
    rules: &[u8],
) -> anyhow::Result<(OpenBook<'p, A>, usize)>
    ensures held { IfOk result (λ b. (b.0.table.patterns.now ≡ patterns.now) × (load (length patterns.now) [] rules.now ≡ taken (open_held b.0) b.1)) }
    ensures taken { (ps : List _) (n : ℕ) → length patterns.now ≤ 32 → load (length patterns.now) [] rules.now ≡ taken ps n → IsOk result }
{
    let mut book = OpenBook::new(PatternTable::check(patterns)?);
    let lines = book.load(rules)?;
    Ok((book, lines))
}
