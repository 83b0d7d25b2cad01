//! What holds of the programs of a unit over two tables of types.

ghost use Rattle.std.specs.Prelude.{ℕ, List};
ghost use Rattle.dm_type.specs.Structs.{AreSameStructs};
ghost use Rattle.dm_type.specs.Tables.{Table};
ghost use Rattle.dm_tree.specs.Units.{TypedUnit};
ghost use Rattle.dm_meaning.specs.Machines.{RunsTo};
ghost use Rattle.dm_meaning.specs.Refinement.{Refines};
ghost use Rattle.dm_meaning.specs.States.{State};
ghost use Rattle.dm_meaning.specs.Steps.{Step};
ghost use Rattle.dm_meaning.specs.Units.{Begins, machine_of, program_of};

/// Over tables with the same structs by number the runs of a unit's programs on an input begin in the same states, and the same steps lead on
/// from each state.
pub fn same_structs_give_the_same_steps()
    ensures begins { (old new : Table) (one : TypedUnit) (input : List ℕ) (state : State) → AreSameStructs old new
        → Begins (program_of old one) input state → Begins (program_of new one) input state }
    ensures steps { (old new : Table) (one : TypedUnit) (state other : State) → AreSameStructs old new
        → Step (program_of old one) state other → Step (program_of new one) state other }
{}

/// So they have the same runs on each input, and each of the two programs refines the other.
pub fn same_structs_give_the_same_runs()
    ensures runs { (old new : Table) (one : TypedUnit) (input : List ℕ) (n : ℕ) (state : State) → AreSameStructs old new
        → (RunsTo (machine_of (program_of old one)) input n state → RunsTo (machine_of (program_of new one)) input n state)
        × (RunsTo (machine_of (program_of new one)) input n state → RunsTo (machine_of (program_of old one)) input n state) }
    ensures refines { (old new : Table) (one : TypedUnit) → AreSameStructs old new
        → Refines (machine_of (program_of new one)) (machine_of (program_of old one)) × Refines (machine_of (program_of old one)) (machine_of (program_of new one)) }
{}
