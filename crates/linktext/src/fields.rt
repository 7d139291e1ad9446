//! The fields of a line, and decimal numbers.
ghost use Rattle.std.specs.Prelude.{◌≡◌, if◌then◌else◌, Some, None};
ghost use Rattle.linktext.specs.Fields.{before, behind, all_decimal, read_on, number_in};

/// A text, cut at its first mark: what stands before it and what behind it. Without a mark, all of it and nothing.
pub fn cut(line: &[u8], mark: u8) -> (&[u8], &[u8])
    ensures first { result.0.now ≡ before mark line.now }
    ensures rest { result.1.now ≡ behind mark line.now }
{
    match line.iter().position(|c| *c == mark) {
        Some(i) => (&line[..i], &line[i + 1..]),
        None => (line, &[]),
    }
}

// What the digits write, where there is nothing but digits. A number too large for 32 bits counts as the largest one.
fn digits_value(digits: &[u8]) -> Option<u32>
    ensures { result ≡ (if all_decimal digits.now then Some (read_on 0 digits.now) else None) }
{
    let mut n: u32 = 0;
    for c in digits {
        let digit = char::from(*c).to_digit(10)?;
        n = n.saturating_mul(10).saturating_add(digit);
    }
    Some(n)
}

// A decimal number without leading zeros; a lone 0 is one.
pub(crate) fn number(digits: &[u8]) -> Option<u32>
    ensures { result ≡ number_in digits.now }
{
    match digits {
        [] | [b'0', _, ..] => None,
        _ => digits_value(digits),
    }
}
