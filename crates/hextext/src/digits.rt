//! Digits, and the bytes that they spell.
ghost use Rattle.std.specs.Prelude.{◌≡◌, ◌<◌, true, [], ◌∷◌};
ghost use Rattle.hextext.specs.Digits.{byte_text, digit, is_hex_digit, all_digits, all_hex_digits};

// 0 to 9 and a to f.
fn is_digit(c: u8) -> bool
    ensures { result ≡ is_hex_digit c }
{
    matches!(c, b'0'..=b'9' | b'a'..=b'f')
}

// Digits only. All are looked at, whatever the first ones are: such a loop takes many at once.
fn only_digits(text: &[u8]) -> bool
    ensures { result ≡ all_digits text.now }
{
    text.iter().fold(true, |all, c| all & is_digit(*c))
}

// Two digits to a byte, and digits only. Looked at in parts, so that a long text that is none is soon told.
pub(crate) fn is_hex(text: &[u8]) -> bool
    ensures { result ≡ all_hex_digits text.now }
{
    if text.len() % 2 != 0 {
        return false;
    }
    for part in text.chunks(64) {
        if !only_digits(part) {
            return false;
        }
    }
    true
}

// A plain byte, and the fact that it is a digit beside it: a type for digits would be made anew of each, and read no plainer.
fn digit_value(c: u8) -> u8
    requires { is_hex_digit c ≡ true }
    ensures small { result < 16 }
    ensures value { digit result ≡ c }
{
    // Not by the library's `to_digit`, which asks up to six limits of a character and took longer.
    match c {
        b'0'..=b'9' => c - b'0',
        _ => c - b'a' + 10,
    }
}

// The byte that two digits spell.
pub(crate) fn byte_value(high: u8, low: u8) -> u8
    requires high { is_hex_digit high ≡ true }
    requires low { is_hex_digit low ≡ true }
    ensures { byte_text result ≡ high ∷ low ∷ [] }
{
    digit_value(high) * 16 + digit_value(low)
}

// The digit of a number below 16.
pub(crate) fn digit_char(n: u8) -> char
    requires { n < 16 }
    ensures value { result ≡ digit n }
    ensures ascii { result < 128 }
{
    char::from_digit(u32::from(n), 16).unwrap()
}
