//! A reading that meets the premises of the laws.

ghost use Rattle.std.specs.Prelude.{◌≡◌, []};
ghost use Rattle.dm_type.specs.Tables.{no_type};
ghost use Rattle.dm_tree.specs.Typing.{IsWellTypedUnit};
ghost use Rattle.dm_tree.specs.Units.{TypedUnit};
ghost use Rattle.dm_typing.specs.Known.{Known, given};
ghost use Rattle.dm_edecl.specs.Units.{typed_unit};
ghost use Rattle.dm_reading.specs.Layered.{IsLayered};
ghost use Rattle.dm_sound_reading.specs.Examples as examples;

use dm_sound_reading::empty_reading;

/// So does the reading of no tokens; what typing gives of them, a unit without declarations, is well typed.
pub fn a_unit_without_declarations()
    ensures layered { IsLayered examples.empty }
    ensures typed { (known : Known) × (one : TypedUnit) × (typed_unit [] [] [] ≡ given known one) × IsWellTypedUnit no_type one }
{
    empty_reading();
}
