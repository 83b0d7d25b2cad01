//! A small program that meets the premises of the laws.

ghost use Rattle.std.specs.Prelude.{◌≡◌, true, [], ◌++◌, Some};
ghost use Rattle.dm_tree.specs.Views.{view_of_unit};
ghost use Rattle.dm_meaning.specs.Machines.{RunsTo};
ghost use Rattle.dm_meaning.specs.Operations.{object_named};
ghost use Rattle.dm_meaning.specs.Steps.{Step};
ghost use Rattle.dm_meaning.specs.Units.{Begins, machine_of};
ghost use Rattle.dm_effect.specs.Scoped.{IsScopedUnit};
ghost use Rattle.dm_sound.specs.Examples as typed;
ghost use Rattle.dm_sound.specs.TypedRuns.{IsTypedProgram};
ghost use Rattle.dm_sound.specs.TypedStates.{IsTypedState};
ghost use Rattle.dm_initialised.specs.Examples as examples;
ghost use Rattle.dm_initialised.specs.Living.{IsLivingState};
ghost use Rattle.dm_initialised.specs.SetStates.{IsSetState};
ghost use Rattle.dm_initialised.specs.Settled.{IsSettledProgram};
ghost use Rattle.dm_initialised.specs.Units.{has_first_value, IsInitialisedUnit};

/// `int main(void) { int x = 1; return x; }`, of which `x` needs to be set, meets each premise of `runs_begin_set`, `objects_stay_set` and
/// `initialised_objects_are_set`.
pub fn set_run()
    ensures typed { IsTypedProgram examples.program }
    ensures settled { IsSettledProgram examples.needs examples.program }
    ensures begins { Begins examples.program [] examples.beginning }
    ensures run { RunsTo (machine_of examples.program) [] 0 examples.beginning }
{}

/// Its first step meets each premise of `steps_keep_objects_set`.
pub fn set_step()
    ensures typed { IsTypedState examples.program examples.beginning }
    ensures set { IsSetState examples.program examples.needs examples.beginning }
    ensures step { Step examples.program examples.beginning examples.behind }
{}

/// Its unit meets each premise of `units_give_settled_programs`, and its object has a first value.
pub fn set_unit()
    ensures scoped { IsScopedUnit examples.unit }
    ensures initialised { IsInitialisedUnit examples.needs examples.unit }
    ensures given { has_first_value examples.unit 1 ≡ true }
{}

/// `int main(void) {}`, as the code has it, meets those premises of `units_name_what_is_set` that it doesn't share with
/// `typed_programs_run_typed`.
pub fn set_core_unit()
    ensures scoped { IsScopedUnit (view_of_unit typed.types typed.core_unit) }
    ensures initialised { IsInitialisedUnit examples.no_needs (view_of_unit typed.types typed.core_unit) }
{}

/// The beginning of its run meets those premises of `steps_keep_named_objects_alive` and `named_objects_are_alive` that the others don't have:
/// `x` has an object.
pub fn living_state()
    ensures living { IsLivingState examples.beginning }
    ensures named { object_named (examples.beginning.statics ++ examples.beginning.frame.objects) 1 ≡ Some 1 }
{}
