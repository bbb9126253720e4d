// The two parts of the line program's input.
ghost use Rattle.std.specs.Prelude.{◌≡◌, ◌∷◌, [], drop};
ghost use Rattle.grammar.specs.Lists.{same_numbers};
ghost use Rattle.programs.specs.Output.{rules_part, traces_part};

use text::lines::{Line, Lines};

// Rule text, and traces one to a line.
#[derive(Clone, Copy)]
pub struct Parts<'i> {
    pub rules: &'i [u8],
    pub traces: &'i [u8],
}

// Whether a line is % alone.
pub(crate) fn divides(line: Line<'_>) -> bool
    ensures { result ≡ same_numbers (drop line.entry.from line.entry.text.now) (37 ∷ []) }
{
    line.bytes() == b"%".as_slice()
}

// The input before and after its first line that is % alone; without such a line all of it is rule text. A loop, and not `find`: that
// tells of the lines passed over only by the calls of a closure.
pub(crate) fn divide(input: &[u8]) -> Parts<'_>
    ensures rules { result.rules.now ≡ rules_part input.now }
    ensures traces { result.traces.now ≡ traces_part input.now }
{
    for line in Lines::of(input) {
        if divides(line) {
            return Parts {
                rules: &line.text[..line.from],
                traces: input.get(line.text.len() + 1..).unwrap_or(&[]),
            };
        }
    }
    Parts {
        rules: input,
        traces: &[],
    }
}
