//! What follows from the definition of runs.

ghost use Rattle.std.specs.Prelude.{ℕ, List};
ghost use Rattle.std.specs.List.{AllByRecursion};
ghost use Rattle.dm_token.specs.declared.expansion.Definition.{Definition};
ghost use Rattle.dm_token.specs.declared.token.CToken.{CToken};
ghost use Rattle.dm_token.specs.declared.unit.UnitTokens.{UnitTokens};
ghost use Rattle.dm_runs.specs.Runs.{runs_of};
ghost use Rattle.dm_apart.specs.Apart.{HasOccurrence, HasPartsApart, IsNamed, IsReadAs};

/// In each run the occurrences of parameters stand inside the run, and apart from one another, the empty ones too.
pub fn occurrences_are_apart()
    ensures { (pp : UnitTokens) (tokens : List CToken) (file hash : ℕ) → AllByRecursion HasPartsApart (runs_of pp tokens file hash) }
{}

/// A parameter that the replacement list names occurs in each run, where each time that the unit reads the directive it gives that definition.
pub fn named_parameters_occur()
    ensures { (pp : UnitTokens) (tokens : List CToken) (file hash : ℕ) (definition : Definition) (n : ℕ) → IsReadAs file hash definition pp.read → IsNamed definition n
        → AllByRecursion (HasOccurrence n) (runs_of pp tokens file hash) }
{}
