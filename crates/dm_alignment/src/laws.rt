//! What follows from the definitions.

ghost use Rattle.std.specs.Prelude.{◌≡◌, false};
ghost use Rattle.dm_edit.specs.declared.change.Change.{Change};
ghost use Rattle.dm_reading.specs.declared.reading.Reading.{Reading};
ghost use Rattle.dm_rules.specs.Uses.{reads};
ghost use Rattle.dm_alignment.specs.Readings.{AreAlignedReadings};

use dm_align::units_are_aligned_with_themselves;

/// A reading is aligned with itself for a change of a definition that its unit doesn't read.
pub fn readings_without_the_definition_are_aligned_with_themselves()
    ensures { (one : Reading) (change : Change) → reads change.definition one ≡ false → AreAlignedReadings one one change }
{
    units_are_aligned_with_themselves();
}
