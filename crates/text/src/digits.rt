ghost use Rattle.std.specs.Prelude.{◌≡◌, ◌<◌, ◌≤◌, true, MatchOption};
ghost use Rattle.std.specs.List.{list_all};
ghost use Rattle.text.specs.Numbers.{is_digit, is_numeral, said_number};

// Whether every byte is a digit.
fn all_digits(s: &[u8]) -> bool
    ensures { result ≡ list_all is_digit s.now }
{
    s.iter().all(|b| b.is_ascii_digit())
}

// Whether the bytes are a number: digits, at least one, with no leading zero but 0 itself.
pub(crate) fn is_numeral(s: &[u8]) -> bool
    ensures { result ≡ is_numeral s.now }
{
    match s {
        [] => false,
        [b] => b.is_ascii_digit(),
        [b'0', ..] => false,
        _ => all_digits(s),
    }
}

// The number that digits say, or nothing where it is over a limit.
pub fn number(digits: &[u8], limit: u32) -> Option<u32>
    requires { list_all is_digit digits.now ≡ true }
    ensures { MatchOption result (limit < said_number digits.now) (λ n. (n ≡ said_number digits.now) × (n ≤ limit)) }
{
    let mut n = 0u64;
    for d in digits {
        n = n * 10 + (*d - b'0') as u64;
        if n > limit as u64 {
            return None;
        }
    }
    Some(n as u32)
}
