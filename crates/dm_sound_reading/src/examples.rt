//! A reading that meets the premise of the laws.

ghost use Rattle.dm_reading.specs.Layered.{IsLayered};
ghost use Rattle.dm_sound_reading.specs.Examples as examples;

/// So does the reading of no tokens. What `read_unit` gives does as well.
pub fn empty_reading()
    ensures { IsLayered examples.empty }
{}
