//! Bytes of integers.

ghost use Rattle.std.specs.Prelude.{◌≡◌};
ghost use Rattle.dm_meaning.specs.Primitives as primitives;

use dm_int::{Kind, convert};

/// What is left of a number in a byte.
pub fn byte_in(number: i128) -> u8
    ensures { result ≡ primitives.byte_in number }
{
    convert(Kind::UChar, number) as u8
}
