ghost use Rattle.std.specs.Prelude.{◌≡◌};
ghost use Rattle.dm_token.specs.Bytes.{is_digit};

/// Whether a byte is a digit, 0 to 9 (6.4.2.1).
#[tactic(auto, unfolding(crate::specs::Bytes::is_digit))]
pub fn is_digit(byte: u8) -> bool
    ensures { result ≡ is_digit byte }
{
    byte.is_ascii_digit()
}
