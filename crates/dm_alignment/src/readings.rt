//! Whether two readings of a unit are aligned.

ghost use Rattle.std.specs.Prelude.{◌≡◌, ◌↔◌, IfOk, IsTrue};
ghost use Rattle.dm_tree.specs.TypeNumbers.{IsTypedUnit};
ghost use Rattle.dm_alignment.specs.declared.alignment.Alignment.TheVariants.{Same};
ghost use Rattle.dm_alignment.specs.Readings.{AreAlignedReadings};

use crate::added::added_to;
use crate::alignment::Alignment;
use dm_align::{Units, are_aligned, are_aligned_for};
use dm_edit::Change;
use dm_meanings::{Named, names_in};
use dm_reading::Reading;
use dm_rules::Index;
use dm_token::Memory;
use std::alloc::Global;

/// Whether the readings of a unit before and after the edit of a definition are aligned: the old one by its index, the new one by what
/// its names mean. More than 4,294,967,294 external declarations count as want of memory.
pub fn align_in(
    alloc: Global,
    old: &Index,
    new: &Named,
    change: &Change,
) -> Result<Alignment, Memory>
    requires old { IsTypedUnit old.now.reading.now.types old.now.reading.now.core }
    requires new { IsTypedUnit new.now.reading.now.types new.now.reading.now.core }
    ensures { IfOk result (λ answer. (answer ≡ Same) ↔ AreAlignedReadings old.now.reading.now new.now.reading.now change.now) }
{
    if are_same(alloc, old, new, change)? {
        Ok(Alignment::Same)
    } else {
        Ok(Alignment::Differs)
    }
}

fn are_same(alloc: Global, old: &Index, new: &Named, change: &Change) -> Result<bool, Memory>
    requires old { IsTypedUnit old.now.reading.now.types old.now.reading.now.core }
    requires new { IsTypedUnit new.now.reading.now.types new.now.reading.now.core }
    ensures { IfOk result (λ answer. IsTrue answer ↔ AreAlignedReadings old.now.reading.now new.now.reading.now change.now) }
{
    let units = Units {
        old_types: &old.reading.types,
        new_types: &new.reading.types,
        old: &old.reading.core,
        new: &new.reading.core,
        runs: old.runs_of(&change.definition),
    };
    if !old.reads(&change.definition) {
        return are_aligned(alloc, &units);
    }
    match added_to(alloc, old, new, change)? {
        None => Ok(false),
        Some(added) => are_aligned_for(alloc, &units, &added),
    }
}

/// Whether the readings of a unit before and after the edit of a definition are aligned. Goes through both units, which `align_in` does once
/// for all definitions. More than 4,294,967,294 tokens, expansions or external declarations count as want of memory.
pub fn align(
    alloc: Global,
    old: &Reading,
    new: &Reading,
    change: &Change,
) -> Result<Alignment, Memory>
    requires old { IsTypedUnit old.now.types old.now.core }
    requires new { IsTypedUnit new.now.types new.now.core }
    ensures { IfOk result (λ answer. (answer ≡ Same) ↔ AreAlignedReadings old.now new.now change.now) }
{
    let old = Index::of(alloc, old)?;
    let names = names_in(alloc, new)?;
    align_in(alloc, &old, &Named::new(new, &names), change)
}
