//! Where the lists of a unit have something of a definition.

ghost use Rattle.std.specs.Prelude.{◌≡◌, ℕ, ◌++◌, ◌∷◌, [], cond, IfOk, List as Sequence};
ghost use Rattle.dm_token.specs.declared.unit.Read.{Read as SeenRead};
ghost use Rattle.dm_token.specs.declared.expansion.Expansion.{Expansion as SeenExpansion};
ghost use Rattle.dm_runs.specs.Listings.{items_at};
ghost use Rattle.dm_runs.specs.Runs as runs;
ghost use Rattle.dm_runs.specs.Spans.{positions};
ghost use Rattle.dm_rules.specs.Listing.{is_expansion_at};

use dm_runs::{ByDirective, is_file};
use dm_token::{Definition, Expansion, Memory, Read};
use std::alloc::Global;

/// With a number in a definition's list, if that stands in a file.
fn with_number(
    found: ByDirective<u32>,
    alloc: Global,
    definition: &Definition,
    number: u32,
) -> Result<ByDirective<u32>, Memory>
    ensures { IfOk result (λ more. (file hash : ℕ) → items_at more file hash ≡ items_at found file hash ++ cond (runs.is_at file hash definition.now) (number ∷ []) []) }
{
    if !is_file(definition.origin) {
        return Ok(found);
    }
    let more = found.add(alloc, definition, number)?;
    Ok(more)
}

/// The positions of the readings of each definition. More than 4,294,967,295 of all count as want of memory.
pub(crate) fn readings(alloc: Global, read: &[Read]) -> Result<ByDirective<u32>, Memory>
    ensures { IfOk result (λ found. (file hash : ℕ) → items_at found file hash ≡ positions (λ (one : SeenRead). runs.is_at file hash one.definition) 0 read.now) }
{
    if read.len() > u32::MAX as usize {
        return Err(Memory);
    }
    let mut found = ByDirective::new(alloc);
    for number in 0..read.len() {
        found = with_number(found, alloc, &read[number].definition, number as u32)?;
    }
    Ok(found)
}

/// With a number in the list of the definition of which an expansion is.
fn with_expansion(
    found: ByDirective<u32>,
    alloc: Global,
    read: &[Read],
    expansion: &Expansion,
    number: u32,
) -> Result<ByDirective<u32>, Memory>
    ensures { IfOk result (λ more. (file hash : ℕ) → items_at more file hash ≡ items_at found file hash ++ cond (is_expansion_at file hash read.now expansion.now) (number ∷ []) []) }
{
    match read.get(expansion.definition as usize) {
        None => Ok(found),
        Some(one) => {
            let more = with_number(found, alloc, &one.definition, number)?;
            Ok(more)
        }
    }
}

/// The positions of the expansions of each definition. More than 4,294,967,295 of all count as want of memory.
pub(crate) fn expansions(
    alloc: Global,
    read: &[Read],
    expansions: &[Expansion],
) -> Result<ByDirective<u32>, Memory>
    ensures { IfOk result (λ found. (file hash : ℕ) → items_at found file hash ≡ positions (λ (one : SeenExpansion). is_expansion_at file hash read.now one) 0 expansions.now) }
{
    if expansions.len() > u32::MAX as usize {
        return Err(Memory);
    }
    let mut found = ByDirective::new(alloc);
    for number in 0..expansions.len() {
        found = with_expansion(found, alloc, read, &expansions[number], number as u32)?;
    }
    Ok(found)
}
