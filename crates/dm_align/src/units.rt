//! Whether two typed units agree.

ghost use Rattle.std.specs.Prelude.{◌↔◌, IfOk, IsTrue, None, Some, length, map};
ghost use Rattle.std.specs.List.{list_all};
ghost use Rattle.dm_tree.specs.TypeNumbers.{entry_has_known, external_has_known};
ghost use Rattle.dm_tree.specs.Views.{view_of_external, view_of_unit};
ghost use Rattle.dm_meaning.specs.Replaced.{Zipped};
ghost use Rattle.dm_agree.specs.Comparing.{added_of, IsKnownAdded};
ghost use Rattle.dm_align.specs.Insertions.{put_in, AreAlignedFor};
ghost use Rattle.dm_align.specs.Units.{rewriting_of, without, AreAligned, ExternalsAgree};

use crate::entries::{are_other_entries, are_same_entries};
use crate::externals::{externals_agree, other_externals_agree};
use crate::insertion::{Inserted, added_in};
use crate::places::are_placed;
use crate::structs::are_same_structs;
use dm_agree::{Added, Block, Comparison, RunIndex};
use dm_runs::Run;
use dm_token::Memory;
use dm_tree::CoreUnit;
use dm_type::Types;
use std::alloc::Global;

/// A unit before and after an edit, with the types of both, and the runs of the macro in the old one.
#[derive(Clone, Copy)]
pub struct Units<'o, 'n, 'r> {
    pub old_types: &'o Types,
    pub new_types: &'n Types,
    pub old: &'o CoreUnit,
    pub new: &'n CoreUnit,
    pub runs: &'r [Run],
}

/// Whether they agree, where nothing is put in.
pub fn are_aligned(alloc: Global, units: &Units) -> Result<bool, Memory>
    requires new_entries { IsTrue (list_all (entry_has_known (length units.now.new_types.now.shapes)) units.now.new.now.declared) }
    requires old_entries { IsTrue (list_all (entry_has_known (length units.now.old_types.now.shapes)) units.now.old.now.declared) }
    requires new_trees { IsTrue (list_all (external_has_known (length units.now.new_types.now.shapes)) units.now.new.now.externals) }
    requires old_trees { IsTrue (list_all (external_has_known (length units.now.old_types.now.shapes)) units.now.old.now.externals) }
    ensures { IfOk result (λ answer. IsTrue answer ↔ AreAligned units.now.old_types.now units.now.new_types.now
        (view_of_unit units.now.old_types.now units.now.old.now) (view_of_unit units.now.new_types.now units.now.new.now) units.now.runs.now None) }
{
    if !are_same_structs(units.old_types, units.new_types)? {
        return Ok(false);
    }
    let new = units.new.declared.items();
    let old = units.old.declared.items();
    if !are_same_entries(units.new_types, new, units.old_types, old) {
        return Ok(false);
    }
    if !all_agree(alloc, units)? {
        return Ok(false);
    }
    are_placed(alloc, units.old, units.runs)
}

/// Whether the external declarations agree, where nothing is put in.
fn all_agree(alloc: Global, units: &Units) -> Result<bool, Memory>
    requires new { IsTrue (list_all (external_has_known (length units.now.new_types.now.shapes)) units.now.new.now.externals) }
    requires old { IsTrue (list_all (external_has_known (length units.now.old_types.now.shapes)) units.now.old.now.externals) }
    ensures { IfOk result (λ answer. IsTrue answer ↔ Zipped (ExternalsAgree (rewriting_of units.now.old_types.now (view_of_unit units.now.old_types.now units.now.old.now) units.now.runs.now None))
        (map (view_of_external units.now.new_types.now) units.now.new.now.externals) (map (view_of_external units.now.old_types.now) units.now.old.now.externals)) }
{
    let runs = RunIndex::of(alloc, units.runs)?;
    let it = Comparison {
        new_types: units.new_types,
        old_types: units.old_types,
        declared: &units.old.declared,
        runs,
        block: None,
        added: Added::Nothing,
    };
    let new = units.new.externals.items();
    let old = units.old.externals.items();
    let answer = externals_agree(alloc, &it, new, old)?;
    Ok(answer)
}

/// Whether they agree, where a declaration is put in.
pub fn are_aligned_for(alloc: Global, units: &Units, it: &Inserted) -> Result<bool, Memory>
    requires new_entries { IsTrue (list_all (entry_has_known (length units.now.new_types.now.shapes)) units.now.new.now.declared) }
    requires old_entries { IsTrue (list_all (entry_has_known (length units.now.old_types.now.shapes)) units.now.old.now.declared) }
    requires new_trees { IsTrue (list_all (external_has_known (length units.now.new_types.now.shapes)) units.now.new.now.externals) }
    requires old_trees { IsTrue (list_all (external_has_known (length units.now.old_types.now.shapes)) units.now.old.now.externals) }
    ensures { IfOk result (λ answer. IsTrue answer ↔ AreAlignedFor it.now units.now.old_types.now units.now.new_types.now
        (view_of_unit units.now.old_types.now units.now.old.now) (view_of_unit units.now.new_types.now units.now.new.now) units.now.runs.now) }
{
    if !are_same_structs(units.old_types, units.new_types)? {
        return Ok(false);
    }
    let Some(added) = added_in(alloc, units.new_types, units.new, it)? else {
        return Ok(false);
    };
    let block = Block {
        first: it.first,
        count: it.count,
    };
    let new = units.new.declared.items();
    let old = units.old.declared.items();
    if !are_other_entries(units.new_types, new, block, units.old_types, old) {
        return Ok(false);
    }
    if !others_agree(alloc, units, it, added)? {
        return Ok(false);
    }
    are_placed(alloc, units.old, units.runs)
}

/// Whether the other external declarations agree, where this is added.
fn others_agree<'n>(
    alloc: Global,
    units: &Units<'_, 'n, '_>,
    it: &Inserted,
    added: Added<'n>,
) -> Result<bool, Memory>
    requires new { IsTrue (list_all (external_has_known (length units.now.new_types.now.shapes)) units.now.new.now.externals) }
    requires old { IsTrue (list_all (external_has_known (length units.now.old_types.now.shapes)) units.now.old.now.externals) }
    requires added { IsKnownAdded (length units.now.new_types.now.shapes) added }
    ensures { IfOk result (λ answer. IsTrue answer ↔ Zipped (ExternalsAgree (rewriting_of units.now.old_types.now (view_of_unit units.now.old_types.now units.now.old.now) units.now.runs.now
        (Some (put_in it.now (added_of units.now.new_types.now added.entry)))))
        (without it.now.external 1 (map (view_of_external units.now.new_types.now) units.now.new.now.externals)) (map (view_of_external units.now.old_types.now) units.now.old.now.externals)) }
{
    let runs = RunIndex::of(alloc, units.runs)?;
    let comparison = Comparison {
        new_types: units.new_types,
        old_types: units.old_types,
        declared: &units.old.declared,
        runs,
        block: Some(Block {
            first: it.first,
            count: it.count,
        }),
        added,
    };
    let new = units.new.externals.items();
    let old = units.old.externals.items();
    let answer = other_externals_agree(alloc, &comparison, new, it.external, old)?;
    Ok(answer)
}
