//! Arguments whose value stays the same.

ghost use Rattle.std.specs.Prelude.{◌≡◌, length, IfOk, IsTrue};
ghost use Rattle.std.specs.List.{list_all};
ghost use Rattle.dm_tree.specs.TypeNumbers.{entry_has_known};
ghost use Rattle.dm_tree.specs.Views.{view, view_of_unit};
ghost use Rattle.dm_effect.specs.Quiet.{is_quiet};
ghost use Rattle.dm_effect.specs.Sequencing.{around};
ghost use Rattle.dm_effect.specs.Stable as stable;

use crate::kept::Kept;
use crate::objects::Objects;
use crate::steady::has_steady_leaves;
use dm_effect::{Path, QuietFunctions, is_pure};
use dm_token::Memory;
use dm_tree::{Core, CoreUnit};
use dm_type::Types;
use std::alloc::Global;

/// Whether an argument of what stands at a place of a full expression in the unit has no call and no store, and either nothing at the
/// place or unsequenced to it writes, or nothing there writes what the argument reads. A way that leads to no tree is followed as
/// far as there are trees. [`is_stable`] is for many places of one unit.
pub fn stable(
    alloc: Global,
    unit: &CoreUnit,
    types: &Types,
    full: &Core,
    at: &Path,
    argument: &Core,
) -> Result<bool, Memory>
    requires { IsTrue (list_all (entry_has_known (length types.now.shapes)) unit.now.declared) }
    ensures { IfOk result (λ answer. answer ≡ stable.is_stable (view_of_unit types.now unit.now) (view types.now full.now) at.now (view types.now argument.now)) }
{
    let quiet = QuietFunctions::of(alloc, unit)?;
    let objects = Objects::of(alloc, unit)?;
    Ok(is_stable(&quiet, &objects, types, full, at, argument))
}

/// Whether it is, in the unit of which it is known which functions are quiet and what its trees do to its objects. Takes no memory.
pub fn is_stable(
    quiet: &QuietFunctions,
    objects: &Objects,
    types: &Types,
    full: &Core,
    at: &Path,
    argument: &Core,
) -> bool
    requires entries { IsTrue (list_all (entry_has_known (length types.now.shapes)) quiet.now.declared) }
    requires same { objects.now ≡ quiet.now }
    ensures { result ≡ stable.is_stable (view_of_unit types.now quiet.now) (view types.now full.now) at.now (view types.now argument.now) }
{
    if !is_pure(argument) {
        return false;
    }
    if quiet.are_quiet_around(full, at) {
        return true;
    }
    let kept = Kept {
        unit: quiet.unit(),
        objects,
        types,
        full,
        at,
    };
    has_steady_leaves(argument, &kept)
}

/// Whether it is, where it is told besides whether what stands at the place and what is unsequenced to it are quiet, as for many
/// arguments of one place. Takes no memory.
pub fn is_stable_where(
    calm: bool,
    objects: &Objects,
    types: &Types,
    full: &Core,
    at: &Path,
    argument: &Core,
) -> bool
    requires entries { IsTrue (list_all (entry_has_known (length types.now.shapes)) objects.now.declared) }
    requires calm { calm ≡ list_all (is_quiet (view_of_unit types.now objects.now)) (around at.now (view types.now full.now)) }
    ensures { result ≡ stable.is_stable (view_of_unit types.now objects.now) (view types.now full.now) at.now (view types.now argument.now) }
{
    let pure = is_pure(argument);
    if !pure {
        return false;
    }
    if calm {
        return true;
    }
    let kept = Kept {
        unit: objects.unit(),
        objects,
        types,
        full,
        at,
    };
    has_steady_leaves(argument, &kept)
}
