//! What a loader holds behind the reading of a unit.

ghost use Rattle.std.specs.Prelude.{◌≡◌, length, None};
ghost use Rattle.std.specs.List.{AllByRecursion};
ghost use Rattle.dm_token.specs.declared.unit.Read.{Read};
ghost use Rattle.dm_token.specs.declared.unit.Unit.{Unit as Source};
ghost use Rattle.dm_token.specs.declared.unit.UnitTokens.{UnitTokens};
ghost use Rattle.dm_search.specs.Loaded.{Loaded};
ghost use Rattle.dm_unit.specs.Loaders.{Grows, HasKnown};
ghost use Rattle.dm_unit.specs.Units.{IsReadByKnown};
ghost use Rattle.dm_held.specs.Held.{IsNumbered, LiesHeld, held_files};

use dm_defined::{definitions_are_made, definitions_stand_in_known_files};
use dm_inside::definitions_lie_in_bytes;

/// The files that a loader holds have what it came to know, from whatever moment on. So what is read whether or not the folder tells its files
/// is the reading over these, and what holds of readings over the files of a folder holds of it.
pub fn held_files_are_known()
    ensures { (old new : Loaded) → length new.held ≡ length new.names → HasKnown (held_files new) old new }
{}

/// Whether or not the folder tells its files, each definition that a unit reads from a file lies in the bytes that the loader holds for that file
/// behind the reading, if it has a body. What the loader knew stays known then, as each reading leaves it.
pub fn definitions_lie_in_held_bytes()
    ensures { (unit : Source) (old new : Loaded) (pp : UnitTokens) → IsReadByKnown unit old new pp → Grows None old new →
        IsNumbered old → IsNumbered new → AllByRecursion (λ (read : Read). LiesHeld new read.definition) pp.read }
{
    // The laws on which its proof rests.
    definitions_are_made();
    definitions_stand_in_known_files();
    definitions_lie_in_bytes();
}
