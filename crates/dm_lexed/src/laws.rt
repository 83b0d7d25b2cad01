//! What identifiers of units that are read from files are, and what they mean.

ghost use Rattle.std.specs.Prelude.{map, Ok};
ghost use Rattle.dm_token.specs.declared.unit.Unit.{Unit as Source};
ghost use Rattle.dm_token.specs.declared.unit.UnitTokens.{UnitTokens};
ghost use Rattle.dm_search.specs.Loaded.{Loaded};
ghost use Rattle.dm_syn.specs.Views as view;
ghost use Rattle.dm_tree.specs.Views.{view_of_unit};
ghost use Rattle.dm_names.specs.Declarations.{source_of};
ghost use Rattle.dm_names.specs.Meanings.{identifiers_of};
ghost use Rattle.dm_unit.specs.States.{Setting};
ghost use Rattle.dm_unit.specs.Units.{IsReadAs};
ghost use Rattle.dm_reading.specs.declared.reading.Reading.{Reading};
ghost use Rattle.dm_numbered.specs.Numbered.{AreMeant, ArePlainTokens};
ghost use Rattle.dm_readings.specs.Reading.{IsReading};
ghost use Rattle.dm_lexed.specs.Words.{ArePpWords, AreWords};

use dm_numbered::readings_mean_what_they_name;

/// What is an identifier among the preprocessing tokens of a unit, or among its tokens of phase 7, is a word: a nondigit, and then nondigits
/// and digits (6.4.2.1). So it is whether it stands in a file or in a define of the manifest, comes of a macro, or is made by `##`.
pub fn identifiers_are_words()
    ensures units { (setting : Setting) (unit : Source) (old new : Loaded) (pp : UnitTokens) →
        IsReadAs setting unit old (Ok pp) new → ArePpWords pp.tokens }
    ensures readings { (setting : Setting) (unit : Source) (old new : Loaded) (reading : Reading) →
        IsReading setting unit old (Ok reading) new → AreWords reading.tokens }
{}

/// So none of them begins with `#`.
pub fn readings_have_plain_tokens()
    ensures { (setting : Setting) (unit : Source) (old new : Loaded) (reading : Reading) →
        IsReading setting unit old (Ok reading) new → ArePlainTokens reading.tokens }
{}

/// Where a tree of a unit that is read from files names an object, a function or an enumerator by its number, the names of the unit give the
/// identifier there that number (6.2.1).
pub fn readings_of_files_mean_what_they_name()
    ensures { (setting : Setting) (unit : Source) (old new : Loaded) (reading : Reading) →
        IsReading setting unit old (Ok reading) new →
        AreMeant (identifiers_of (source_of reading.tokens (view_of_unit reading.types reading.core)) (map view.external reading.syntax)) (view_of_unit reading.types reading.core).externals }
{
    // The law on which its proof rests.
    readings_mean_what_they_name();
}
