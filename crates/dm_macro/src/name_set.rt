//! Sets of names that are looked up by hash, so that a long parameter list costs no more than its length.

ghost use Rattle.std.specs.Prelude.{◌≡◌, ◌↔◌, IsTrue, IfOk, bytes_eq};
ghost use Rattle.std.specs.List.{IsDistinct};
ghost use Rattle.dm_macro.specs.NameSets.{has_name, HasNamesOf};

use dm_token::{Memory, Text};
use std::alloc::Global;
use std::collections::HashSet;

/// Whether no two names are equal.
pub(crate) fn are_distinct(alloc: Global, names: &[Text]) -> Result<bool, Memory>
    ensures { IfOk result (λ apart. IsTrue apart ↔ IsDistinct bytes_eq names.now) }
{
    let mut seen = HashSet::new(alloc);
    for name in names {
        if !seen.insert(name.copy()?)? {
            return Ok(false);
        }
    }
    Ok(true)
}

/// The set of the names.
pub(crate) fn set_of(alloc: Global, names: &[Text]) -> Result<HashSet<Text>, Memory>
    ensures { IfOk result (λ set. HasNamesOf names.now set) }
{
    let mut set = HashSet::new(alloc);
    for name in names {
        set.insert(name.copy()?)?;
    }
    Ok(set)
}

/// Whether the set has the name.
pub(crate) fn has(set: &HashSet<Text>, name: &Text) -> bool
    ensures { result ≡ has_name set.now name.now }
{
    set.contains(name)
}
