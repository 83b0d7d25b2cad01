//! Verdicts.

ghost use Rattle.std.specs.Prelude.{None, IfOk};
ghost use Rattle.dm_tree.specs.TypeNumbers.{IsTypedUnit};
ghost use Rattle.dm_verdict.specs.Verdicts.{IsVerdict, IsVerdictBy, RefinesIfAllowed};

use crate::rules::broken_alone;
use crate::verdict::Verdict;
use dm_alignment::{Alignment, align_in};
use dm_edit::Change;
use dm_meanings::{Named, names_in};
use dm_reading::Reading;
use dm_refined::allowed_changes_refine;
use dm_rules::Index;
use dm_token::Memory;
use std::alloc::Global;

/// The rule whose number says that the edited unit is read, and aligned with what it was.
const REREAD: u8 = 15;

/// What is said where no other rule is broken.
fn reread(alloc: Global, old: &Index, new: &Reading, change: &Change) -> Result<Verdict, Memory>
    requires old { IsTypedUnit old.now.reading.now.types old.now.reading.now.core }
    requires new { IsTypedUnit new.now.types new.now.core }
    ensures { IfOk result (IsVerdictBy old.now.reading.now new.now change.now None) }
{
    let names = names_in(alloc, new)?;
    match align_in(alloc, old, &Named::new(new, &names), change)? {
        Alignment::Same => Ok(Verdict::Allowed),
        Alignment::Differs => Ok(Verdict::Broken {
            rule: REREAD,
            place: change.definition.place,
        }),
    }
}

/// Whether an edit is allowed in a unit, by its readings before and after. The rules are read over this one unit. Where it is, the program of the new
/// reading refines that of the old one, if the old one is a reading of files that have the definition, and the new one has the layers of its tokens.
/// More than 4,294,967,294 tokens, expansions or external declarations count as want of memory.
pub fn judge(
    alloc: Global,
    old: &Reading,
    new: &Reading,
    change: &Change,
) -> Result<Verdict, Memory>
    requires old { IsTypedUnit old.now.types old.now.core }
    requires new { IsTypedUnit new.now.types new.now.core }
    ensures verdict { IfOk result (IsVerdict old.now new.now change.now) }
    ensures refines { IfOk result (RefinesIfAllowed old.now new.now change.now) }
{
    // The law on which the second clause rests.
    allowed_changes_refine();
    let old = Index::of(alloc, old)?;
    let found = broken_alone(alloc, &change.definition, &old)?;
    if let Some(broken) = found {
        let (rule, place) = broken;
        return Ok(Verdict::Broken { rule, place });
    }
    let verdict = reread(alloc, &old, new, change)?;
    Ok(verdict)
}
