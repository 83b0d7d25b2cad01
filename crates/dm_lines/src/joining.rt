ghost use Rattle.std.specs.Prelude.{◌≡◌, ℕ, ◌++◌, take, OnOk, OnErr};
ghost use Rattle.std.specs.List.{flat_map};

use dm_token::Memory;

/// Appends texts one after another. After an `Err` only so many of them are appended, from the first on.
pub fn append_all(bytes: &mut Vec<u8>, parts: &[&[u8]]) -> Result<(), Memory>
    ensures ok { OnOk result (bytes.new.items ≡ bytes.old.items ++ flat_map (λ part. part.now) parts.now) }
    ensures err { OnErr result ((count : ℕ) × (bytes.new.items ≡ bytes.old.items ++ flat_map (λ part. part.now) (take count parts.now))) }
{
    for part in parts {
        bytes.extend_from_slice(part)?;
    }
    Ok(())
}
