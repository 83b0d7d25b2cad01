//! What follows from where runs stand.

ghost use Rattle.std.specs.Prelude.{◌≡◌, ◌<◌, ℕ, IsTrue, List, Some, length};
ghost use Rattle.std.specs.List.{AllByRecursion};
ghost use Rattle.dm_runs.specs.declared.run.Run.{Run};
ghost use Rattle.dm_type.specs.Tables.{Table};
ghost use Rattle.dm_tree.specs.Trees.{Tree};
ghost use Rattle.dm_tree.specs.Typing.{IsWellTypedUnit};
ghost use Rattle.dm_tree.specs.Units.{TypedUnit};
ghost use Rattle.dm_agree.specs.Agreement.{added_function, Rewriting};
ghost use Rattle.dm_align.specs.Units.{Insertion, AreAligned, rewriting_of};
ghost use Rattle.dm_refine.specs.Calls.{AreOthersEvaluated};
ghost use Rattle.dm_apart.specs.Apart.{HasPartsApart};
ghost use Rattle.dm_beside.specs.Places.{is_subtree, occurs};
ghost use Rattle.dm_scoped.specs.Spans.{IsLaidOutUnit};
ghost use Rattle.dm_told.specs.Told.{ArePlacesTold};
ghost use Rattle.dm_standing.specs.Calls.{HasArguments, HasOccurrences, MayCall};

use dm_told::places_are_nested;

/// Where a function is put in, no operand of sizeof in the rest of the new unit calls it, if no run breaks the rule 10 and each parameter has
/// an argument in each run. The places of the old unit are to be told by their tokens.
pub fn calls_are_evaluated()
    ensures { (old_types new_types : Table) (old new : TypedUnit) (runs : List Run) (put : Insertion) (f : ℕ) (parameters : List ℕ) (body : Tree)
        → IsWellTypedUnit old_types old → IsWellTypedUnit new_types new → AreAligned old_types new_types old new runs (Some put)
        → put.added ≡ added_function f parameters body → ArePlacesTold old
        → AllByRecursion (λ (run : Run). MayCall old_types old run × HasArguments (rewriting_of old_types old runs (Some put)) old (length parameters) run) runs
        → AreOthersEvaluated f put new }
{}

/// Where the occurrences of a run stand inside it and apart, each stands in the run's tree, and none of them in another.
pub fn occurrences_stand()
    ensures { (types : Table) (one : TypedUnit) (it : Rewriting) (run : Run) → IsWellTypedUnit types one → IsLaidOutUnit one → HasPartsApart run → HasOccurrences it one run }
{
    places_are_nested();
}

/// So where besides the run keeps the rule 9, each parameter that occurs in it has an argument.
pub fn arguments_stand()
    ensures { (types : Table) (one : TypedUnit) (it : Rewriting) (count : ℕ) (run : Run) → IsWellTypedUnit types one → IsLaidOutUnit one → HasPartsApart run
        → IsTrue (is_subtree one run) → ((n : ℕ) → n < count → IsTrue (occurs run n)) → HasArguments it one count run }
{
    occurrences_stand();
}
