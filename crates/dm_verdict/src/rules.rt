//! The rules that a unit alone can break.

ghost use Rattle.std.specs.Prelude.{◌≡◌, [], ◌∷◌, IfOk};
ghost use Rattle.dm_tree.specs.TypeNumbers.{IsTypedUnit};
ghost use Rattle.dm_judge.specs.Rules.{broken_first};
ghost use Rattle.dm_judge.specs.Units.{AreWhole, readings_of};
ghost use Rattle.dm_refined.specs.Allowed.{rules_in};

use dm_judge::{Units, broken_from_5};
use dm_meanings::names_in;
use dm_rules::{Index, broken_directive};
use dm_token::{Definition, Memory, Place};
use std::alloc::Global;
use std::slice;

/// The least of them that is broken in a unit, and where it is broken first.
pub(crate) fn broken_alone(
    alloc: Global,
    definition: &Definition,
    index: &Index,
) -> Result<Option<(u8, Place)>, Memory>
    requires { IsTypedUnit index.now.reading.now.types index.now.reading.now.core }
    ensures { IfOk result (λ broken. broken ≡ broken_first (rules_in definition.now index.now.reading.now)) }
{
    let names = names_in(alloc, index.reading)?;
    let mut units = Units::of(alloc, slice::from_ref(index), slice::from_ref(&names))?;
    let broken = broken_in(alloc, definition, index, &mut units)?;
    Ok(broken)
}

/// The same, where the unit is the only one of these.
fn broken_in(
    alloc: Global,
    definition: &Definition,
    index: &Index,
    units: &mut Units,
) -> Result<Option<(u8, Place)>, Memory>
    requires whole { AreWhole units.old }
    requires alone { readings_of units.old ≡ index.now.reading.now ∷ [] }
    ensures { IfOk result (λ broken. broken ≡ broken_first (rules_in definition.now index.now.reading.now)) }
{
    if let Some(place) = broken_directive(definition, slice::from_ref(index)) {
        return Ok(Some((3, place)));
    }
    if !index.reads(definition) {
        return Ok(None);
    }
    let broken = broken_from_5(alloc, definition, units)?;
    Ok(broken)
}
