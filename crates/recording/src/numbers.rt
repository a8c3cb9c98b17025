ghost use Rattle.std.specs.Prelude.{◌≡◌, ◌^◌, ◌≤◌};
ghost use Rattle.recording.specs.Numbers.{with_digit, under, number_in, decimal_of, hex_of};

// The number with one more digit, unless it is 2^64 or more.
fn with_digit(n: u64, digit: u8, base: u32) -> Option<u64>
    requires least { 2 ≤ base }
    requires most { base ≤ 36 }
    ensures { result ≡ with_digit base n digit }
{
    let value = char::from(digit).to_digit(base)?;
    n.checked_mul(u64::from(base))?
        .checked_add(u64::from(value))
}

// The number that one or more digits write in a base, unless it is 2^64 or more.
fn number(digits: &[u8], base: u32) -> Option<u64>
    requires least { 2 ≤ base }
    requires most { base ≤ 36 }
    ensures { result ≡ under (2 ^ 64) (number_in base digits.now) }
{
    if digits.is_empty() {
        return None;
    }
    digits
        .iter()
        .try_fold(0, |n, digit| with_digit(n, *digit, base))
}

// A number in base ten, below 2^64.
pub(crate) fn decimal(digits: &[u8]) -> Option<u64>
    ensures { result ≡ decimal_of digits.now }
{
    number(digits, 10)
}

// A pin word: one to four hexadecimal digits.
pub(crate) fn hex(digits: &[u8]) -> Option<u16>
    ensures { result ≡ hex_of digits.now }
{
    if digits.len() > 4 {
        return None;
    }
    number(digits, 16).map(|n| n as u16)
}
