//! Digits to a base.

ghost use Rattle.std.specs.Prelude.{◌≡◌, ◌≤◌, ◌<◌, ◌+◌, ◌*◌, length};
ghost use Rattle.dm_ctok.specs.Digits.{digit_value as value_of_digit, is_digit as digit, digits_len as len_of_digits, value_of as value_of_digits, up_to};

#[tactic(auto, unfolding(crate::specs::Digits::digit_value))]
fn digit_value(byte: u8) -> u8
    ensures value { result ≡ value_of_digit byte }
    ensures small { result ≤ 16 }
{
    match byte {
        b'0'..=b'9' => byte - b'0',
        b'a'..=b'f' => byte - b'a' + 10,
        b'A'..=b'F' => byte - b'A' + 10,
        _ => 16,
    }
}

/// Whether a byte is a digit to the base.
pub fn is_digit(base: u8, byte: u8) -> bool
    ensures { result ≡ digit base byte }
{
    digit_value(byte) < base
}

/// How many digits stand at the front of bytes.
#[tactic(auto, unfolding(crate::specs::Digits::digits_len))]
pub fn digits_len(base: u8, bytes: &[u8]) -> usize
    ensures value { result ≡ len_of_digits base bytes.now }
    ensures inside { result ≤ length bytes.now }
{
    for (at, byte) in bytes.iter().enumerate() {
        if !is_digit(base, *byte) {
            return at;
        }
    }
    bytes.len()
}

/// The number that digits write, if it is at most this one.
pub fn value_of(base: u8, digits: &[u8], most: u64) -> Option<u64>
    requires { 0 < base }
    ensures { result ≡ up_to most (value_of_digits base digits.now) }
{
    let mut value = 0;
    for digit in digits {
        value = longer(base, value, *digit, most)?;
    }
    Some(value)
}

// The number that a number and one digit behind it write, if it is at most this one.
fn longer(base: u8, value: u64, digit: u8, most: u64) -> Option<u64>
    ensures { result ≡ up_to most (base * value + value_of_digit digit) }
{
    let shifted = u64::from(base).checked_mul(value)?;
    let longer = shifted.checked_add(u64::from(digit_value(digit)))?;
    (longer <= most).then_some(longer)
}
