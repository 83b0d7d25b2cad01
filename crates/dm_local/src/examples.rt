//! A reading that meets the premises of the laws.

ghost use Rattle.std.specs.Prelude.{◌≡◌, false, true};
ghost use Rattle.std.specs.FinMap as finite;
ghost use Rattle.dm_search.specs.Loaded.{is_held};
ghost use Rattle.dm_unit.specs.Readings.{is_among};
ghost use Rattle.dm_local.specs.Examples as examples;
ghost use Rattle.dm_local.specs.Kept.{IsOfLoader, IsReadBy};

/// So does the reading of an empty file, by a loader that holds it beside the built-in headers, of which it reads none. What `read_unit`
/// gives does as well.
pub fn reading_of_empty_file()
    ensures loader { IsOfLoader examples.known }
    ensures reading { IsReadBy examples.known finite.empty examples.unit examples.reading }
    ensures held { is_held examples.known 0 ≡ true }
    ensures not_read { is_among 0 examples.reading.pp.files ≡ false }
{}
