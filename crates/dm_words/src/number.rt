ghost use Rattle.std.specs.Prelude.{◌≡◌};
ghost use Rattle.dm_words.specs.Readings.{number_in, value_after, with_digit as with_one_digit};

use dm_token::is_digit;

/// How many digits a number may have: as many as the greatest number of 64 bits.
const MOST_DIGITS: usize = 20;

/// The number that a text writes: one to twenty decimal digits, which write less than 2 to the power of 64.
pub(crate) fn number(text: &[u8]) -> Option<u64>
    ensures { result ≡ number_in text.now }
{
    if text.is_empty() || text.len() > MOST_DIGITS {
        return None;
    }
    value(text)
}

/// The number that decimal digits write.
fn value(text: &[u8]) -> Option<u64>
    ensures { result ≡ value_after 0 text.now }
{
    let mut value = 0;
    for digit in text {
        value = with_digit(value, *digit)?;
    }
    Some(value)
}

/// A number with one more digit at its end.
#[tactic(auto, unfolding(dm_token::specs::Bytes::is_digit))]
fn with_digit(number: u64, digit: u8) -> Option<u64>
    ensures { result ≡ with_one_digit number digit }
{
    if !is_digit(digit) {
        return None;
    }
    let longer = u128::from(number) * 10 + u128::from(digit - b'0');
    if longer <= u128::from(u64::MAX) {
        Some(longer as u64)
    } else {
        None
    }
}
