//! What holds of each typed unit, and so of each reading.

ghost use Rattle.std.specs.Prelude.{◌≡◌, List};
ghost use Rattle.dm_token.specs.declared.token.CToken.{CToken};
ghost use Rattle.dm_type.specs.declared.shape.Shape.{Shape};
ghost use Rattle.dm_type.specs.Tables.{Table};
ghost use Rattle.dm_syn.specs.Trees.{External};
ghost use Rattle.dm_tree.specs.Typing.{IsWellTypedUnit};
ghost use Rattle.dm_tree.specs.Units.{TypedUnit};
ghost use Rattle.dm_tree.specs.Views.{view_of_unit};
ghost use Rattle.dm_typing.specs.Known.{Known, given};
ghost use Rattle.dm_edecl.specs.Units.{typed_unit};
ghost use Rattle.dm_reading.specs.declared.reading.Reading.{Reading};
ghost use Rattle.dm_reading.specs.Layered.{IsLayered};
ghost use Rattle.dm_initialised.specs.Once.{IsDeclaredOnce};

use dm_sound_reading::readings_are_sound;

/// Each automatic object of a typed unit has one declaration, as a parameter or by a declarator, and no item of a `switch` is one: typing
/// gives each such object a number that is new.
pub fn units_declare_once()
    ensures { (shapes : List Shape) (tokens : List CToken) (externals : List External) (known : Known) (types : Table) (one : TypedUnit) →
        typed_unit shapes tokens externals ≡ given known one → IsWellTypedUnit types one → IsDeclaredOnce one }
{}

/// So has each of a unit that is read.
pub fn readings_declare_once()
    ensures { (reading : Reading) → IsLayered reading → IsDeclaredOnce (view_of_unit reading.types reading.core) }
{
    // The law on which its proof rests.
    readings_are_sound();
}
