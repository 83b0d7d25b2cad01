//! The first places of names.

ghost use Rattle.std.specs.Prelude.{◌≡◌, ℕ, List as Sequence, IfOk};
ghost use Rattle.std.specs.List.{position_from};
ghost use Rattle.std.specs.FinMap as finite;
ghost use Rattle.dm_mentions.specs.Mentions.{is_mention, is_use};

use dm_macro::is_identifier;
use dm_name_map::NameMap;
use dm_token::{Memory, Token, Use};
use std::alloc::Global;

/// The position of the first token that is an identifier, for each identifier. More than 4,294,967,295 tokens count as
/// want of memory.
pub(crate) fn identifiers(alloc: Global, tokens: &[Token]) -> Result<NameMap, Memory>
    ensures { IfOk result (λ found. (name : Sequence ℕ) → finite.get found name ≡ position_from (is_mention name) 0 tokens.now) }
{
    if tokens.len() > u32::MAX as usize {
        return Err(Memory);
    }
    let mut found = NameMap::new(alloc);
    let mut left = tokens;
    while let Some((last, before)) = left.split_last() {
        if is_identifier(&last.pp) {
            found.insert(last.pp.spelling.copy()?, before.len() as u32)?;
        }
        left = before;
    }
    Ok(found)
}

/// The position of the first use of a name, for each name that is used. More than 4,294,967,295 uses count as want of
/// memory.
pub(crate) fn first_uses(alloc: Global, uses: &[Use]) -> Result<NameMap, Memory>
    ensures { IfOk result (λ found. (name : Sequence ℕ) → finite.get found name ≡ position_from (is_use name) 0 uses.now) }
{
    if uses.len() > u32::MAX as usize {
        return Err(Memory);
    }
    let mut found = NameMap::new(alloc);
    let mut left = uses;
    while let Some((last, before)) = left.split_last() {
        found.insert(last.name.copy()?, before.len() as u32)?;
        left = before;
    }
    Ok(found)
}
