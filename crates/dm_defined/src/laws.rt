//! What follows from the definition of phase 4.

ghost use Rattle.std.specs.Prelude.{◌≡◌, ◌<◌, ℕ, true, List, Ok, bytes_eq, length};
ghost use Rattle.std.specs.List.{AllByRecursion, IsDistinct};
ghost use Rattle.dm_token.specs.declared.expansion.Definition.{Definition};
ghost use Rattle.dm_token.specs.declared.unit.Read.{Read};
ghost use Rattle.dm_token.specs.declared.unit.Unit.{Unit as Source};
ghost use Rattle.dm_token.specs.declared.unit.UnitTokens.{UnitTokens};
ghost use Rattle.dm_io.specs.Files.{Files};
ghost use Rattle.dm_search.specs.Loaded.{Loaded};
ghost use Rattle.dm_macro.specs.Bodies.{named_parameters};
ghost use Rattle.dm_runs.specs.Runs.{is_file};
ghost use Rattle.dm_unit.specs.Units.{IsReadAs, setting_of};
ghost use Rattle.dm_defined.specs.Made.{IsMade, IsMadeIn};

/// Each definition that a unit reads from a file is made by a directive of that file, with the bytes that the file has in the reading.
pub fn definitions_are_made()
    ensures { (files : Files) (unit : Source) (old new : Loaded) (pp : UnitTokens) → IsReadAs (setting_of old new files unit) unit old (Ok pp) new
        → AllByRecursion (λ (read : Read). IsMade (setting_of old new files unit) read.definition) pp.read }
{}

/// The file of such a definition has a number below the count of the names that the loader has behind the reading.
pub fn definitions_stand_in_known_files()
    ensures { (files : Files) (unit : Source) (old new : Loaded) (pp : UnitTokens) → IsReadAs (setting_of old new files unit) unit old (Ok pp) new
        → AllByRecursion (λ (read : Read). is_file read.definition.origin ≡ true → read.definition.place.file < length new.names) pp.read }
{}

/// The directives of a file with the same bytes make one definition at each `#`: whichever unit reads it, and however often, it is the same.
pub fn one_definition()
    ensures { (file : ℕ) (bytes : List ℕ) (one other : Definition) → IsMadeIn file bytes one → IsMadeIn file bytes other → one.hash ≡ other.hash → one ≡ other }
{}

/// The names of its parameters differ (6.10.3p6).
pub fn parameters_differ()
    ensures { (file : ℕ) (bytes : List ℕ) (definition : Definition) → IsMadeIn file bytes definition
        → IsDistinct bytes_eq (named_parameters definition.parameters) }
{}
