//! Where the refusals and the tokens of a unit's reading lie.

ghost use Rattle.std.specs.Prelude.{◌≡◌, ◌++◌, ℕ, true, List, Ok, Err};
ghost use Rattle.std.specs.List.{AllByRecursion};
ghost use Rattle.dm_ctok.specs.Tokens.{ctokens_of};
ghost use Rattle.dm_reading.specs.Elaborated.{Elaborates};
ghost use Rattle.dm_reading.specs.Layered.{HasLayers};
ghost use Rattle.dm_reading.specs.Syntax.{IsSyntax, Refuses};
ghost use Rattle.dm_syn.specs.Trees.{External};
ghost use Rattle.dm_token.specs.Names.{is_normal_name};
ghost use Rattle.dm_token.specs.declared.stop.Refusal.{Refusal};
ghost use Rattle.dm_token.specs.declared.stop.Stop.TheVariants.{Refused};
ghost use Rattle.dm_token.specs.declared.token.CToken.{CToken};
ghost use Rattle.dm_token.specs.declared.token.Token.{Token};
ghost use Rattle.dm_token.specs.declared.unit.Unit.{Unit as Source};
ghost use Rattle.dm_token.specs.declared.unit.UnitTokens.{UnitTokens};
ghost use Rattle.dm_io.specs.Files.{Files};
ghost use Rattle.dm_search.specs.Fresh.{StartsWithHeaders};
ghost use Rattle.dm_search.specs.Loaded.{Loaded};
ghost use Rattle.dm_unit.specs.States.{Setting};
ghost use Rattle.dm_unit.specs.Units.{setting_of, IsReadAs};
ghost use Rattle.dm_readings.specs.Reading.{IsReading};
ghost use Rattle.dm_defines.specs.Readable.{HasReadableDefines};
ghost use Rattle.dm_readings.specs.Units.{ReadsProject, ending};
ghost use Rattle.dm_places.specs.Places.{LiesIn, LiesInFile, CanBeRead};

use dm_search::searched_names_are_normal;

/// A refusal of a unit's reading up to phase 4 lies in the file that it names, and at 1:1 where that is absent or empty, if the defines of
/// the manifest are lines of tokens, as all lawful ones are.
pub fn refusals_lie_in_files()
    ensures { (files : Files) (unit : Source) (old new : Loaded) (refusal : Refusal) →
        IsReadAs (setting_of old new files unit) unit old (Err (Refused refusal)) new → StartsWithHeaders old →
        AllByRecursion (CanBeRead (setting_of old new files unit)) unit.define → LiesIn (setting_of old new files unit) refusal.place }
{}

/// So do the tokens of a unit that is read.
pub fn tokens_lie_in_files()
    ensures { (files : Files) (unit : Source) (old new : Loaded) (pp : UnitTokens) →
        IsReadAs (setting_of old new files unit) unit old (Ok pp) new → StartsWithHeaders old →
        AllByRecursion (CanBeRead (setting_of old new files unit)) unit.define →
        AllByRecursion (λ (token : Token). LiesIn (setting_of old new files unit) token.pp.place) pp.tokens }
{}

/// The names of files that are new behind the reading of a unit are normal (6.10.2), if that of its main file is.
pub fn new_names_are_normal()
    ensures { (files : Files) (unit : Source) (old new : Loaded) (pp : UnitTokens) →
        IsReadAs (setting_of old new files unit) unit old (Ok pp) new → StartsWithHeaders old →
        AllByRecursion (CanBeRead (setting_of old new files unit)) unit.define → is_normal_name unit.file ≡ true →
        (more : List (List ℕ)) × (new.names ≡ old.names ++ more) × AllByRecursion (λ (name : List ℕ). is_normal_name name ≡ true) more }
{
    // The law on which its proof rests.
    searched_names_are_normal();
}

/// Where the preprocessing tokens lie in their files, so do the refusals of their tokens of phase 7, those of the syntax of these, and the
/// first typing rule that is broken: each refusal of the layers behind phase 4.
pub fn later_refusals_lie_in_files()
    ensures tokens { (setting : Setting) (tokens : List Token) (refusal : Refusal) →
        AllByRecursion (λ (token : Token). LiesIn setting token.pp.place) tokens → ctokens_of tokens ≡ Err refusal → LiesIn setting refusal.place }
    ensures syntax { (setting : Setting) (tokens : List Token) (made : List CToken) (refusal : Refusal) →
        AllByRecursion (λ (token : Token). LiesIn setting token.pp.place) tokens → ctokens_of tokens ≡ Ok made → Refuses made (Refused refusal) →
        LiesIn setting refusal.place }
    ensures typing { (setting : Setting) (tokens : List Token) (made : List CToken) (externals : List External) (refusal : Refusal) →
        AllByRecursion (λ (token : Token). LiesIn setting token.pp.place) tokens → ctokens_of tokens ≡ Ok made → IsSyntax made externals →
        Elaborates made externals (Err (Refused refusal)) → LiesIn setting refusal.place }
    ensures layers { (setting : Setting) (tokens : List Token) (refusal : Refusal) →
        AllByRecursion (λ (token : Token). LiesIn setting token.pp.place) tokens → HasLayers tokens (Err (Refused refusal)) → LiesIn setting refusal.place }
{}

/// So each refusal of a unit's reading lies in the file that it names.
pub fn readings_are_refused_in_files()
    ensures { (files : Files) (unit : Source) (old new : Loaded) (refusal : Refusal) →
        IsReading (setting_of old new files unit) unit old (Err (Refused refusal)) new → StartsWithHeaders old →
        AllByRecursion (CanBeRead (setting_of old new files unit)) unit.define → LiesIn (setting_of old new files unit) refusal.place }
{}

/// So does each refusal of the reading of a project's units.
pub fn projects_are_refused_in_files()
    ensures { (files : Files) (units : List Source) (begun : ℕ) (old new : Loaded) (refusal : Refusal) →
        ReadsProject files units old (ending (Err (Refused refusal)) begun new) → StartsWithHeaders old → AllByRecursion HasReadableDefines units →
        LiesInFile old new files refusal.place }
{}
