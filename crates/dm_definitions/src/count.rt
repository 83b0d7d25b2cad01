ghost use Rattle.std.specs.Prelude.{◌≡◌, ◌+◌, ◌*◌, ◌^◌, nat_lt, IfOk, OnOk};
ghost use Rattle.dm_definitions.specs.Counts.{definition_count, is_in_file as stands_in_file, limit, with_definition};

use dm_token::{Definition, MOST_DEFINITIONS, Memory, Origin, Read};
use indexmap::IndexSet;
use std::alloc::Global;

/// Whether there are more than 4,096 different definitions in files among those that were read.
pub fn exceeds_limit(alloc: Global, read: &[Read]) -> Result<bool, Memory>
    ensures { IfOk result (λ exceeds. exceeds ≡ nat_lt limit (definition_count read.now)) }
{
    let mut keys = IndexSet::new(alloc);
    for one in read {
        add(&mut keys, &one.definition)?;
        if keys.len() > MOST_DEFINITIONS {
            return Ok(true);
        }
    }
    Ok(false)
}

/// Adds a definition's key, where it is in a file.
fn add(keys: &mut IndexSet<u64>, definition: &Definition) -> Result<(), Memory>
    ensures { OnOk result (keys.new.keys ≡ with_definition keys.old.keys definition.now) }
{
    if is_in_file(definition.origin) {
        keys.insert(key(definition.place.file, definition.hash))?;
    }
    Ok(())
}

fn is_in_file(origin: Origin) -> bool
    ensures { result ≡ stands_in_file origin }
{
    matches!(origin, Origin::File)
}

/// A file's number and the byte of a `#` in it, as one number.
fn key(file: u32, hash: u32) -> u64
    ensures { result ≡ file * 2 ^ 32 + hash }
{
    u64::from(file) * 4294967296 + u64::from(hash)
}
