// The book of a case.
use anyhow::bail;
use book::alphabet::Alphabet;
use book::books::ClosedBook;
use book::table::PatternTable;
use cases::books::loaded;

// The closed book over these patterns that holds the rules of a text.
pub(crate) fn closed<'p, A: Alphabet>(
    patterns: &'p [A::Pattern],
    rules: &str,
) -> anyhow::Result<ClosedBook<'p, A>> {
    if PatternTable::<A>::check(patterns).is_err() {
        bail!("a table is refused");
    }
    let Ok((book, _)) = loaded::<A>(patterns, rules.as_bytes()) else {
        bail!("a rule is refused");
    };
    Ok(book.close())
}
