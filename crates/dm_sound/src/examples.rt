//! A small program that meets the premises of the laws.

ghost use Rattle.std.specs.Prelude.{◌≡◌, IsTrue, [], ◌∷◌, Some, pos};
ghost use Rattle.dm_int.specs.declared.Kind.TheVariants.{Char, Int};
ghost use Rattle.dm_type.specs.CTypes.{integer, void};
ghost use Rattle.dm_type.specs.Structs.{AreSameStructs};
ghost use Rattle.dm_type.specs.Tables.{no_type};
ghost use Rattle.dm_tree.specs.Constants.{integer_kind};
ghost use Rattle.dm_tree.specs.TypeNumbers.{IsTypedUnit};
ghost use Rattle.dm_tree.specs.Typing.{IsWellTypedUnit};
ghost use Rattle.dm_meaning.specs.declared.cause.Cause.TheVariants.{Overflow};
ghost use Rattle.dm_meaning.specs.Among.{IsAmong};
ghost use Rattle.dm_meaning.specs.Expressions.{fails, moves};
ghost use Rattle.dm_meaning.specs.Machines.{Goes, RunsTo};
ghost use Rattle.dm_meaning.specs.Operations.{gives, of_value, operate};
ghost use Rattle.dm_meaning.specs.Programs.{layout};
ghost use Rattle.dm_meaning.specs.Running.{begun, open_of};
ghost use Rattle.dm_meaning.specs.Steps.{Step};
ghost use Rattle.dm_meaning.specs.Units.{Begins, machine_of, program_of};
ghost use Rattle.dm_meaning.specs.Values.{integer_value};
ghost use Rattle.dm_meaning.specs.Wholes.{is_expression};
ghost use Rattle.dm_sound.specs.Examples as examples;
ghost use Rattle.dm_sound.specs.Lacks.{GivesValues};
ghost use Rattle.dm_sound.specs.TypedRuns.{ArgumentsFit, ComesFrom, HoleComesFrom, IsProperUnit, IsTypedProgram, IsTypedWorld};
ghost use Rattle.dm_sound.specs.TypedStates.{IsTypedState};
ghost use Rattle.dm_sound.specs.TypedSteps.{IsTypedScope, AreOperands, is_operated};
ghost use Rattle.dm_sound.specs.TypedTrees.{IsSoundTable, IsTyped};
ghost use Rattle.dm_sound.specs.TypedValues.{AreTyped, HasType, IsGiven, has_parts, own_type};

/// `c++`, where `c` is an int that holds 5, meets each premise of `operators_give_their_types`, `expressions_keep_their_types` and
/// `typed_expressions_are_never_ill`.
pub fn typed_counting()
    ensures scope { IsTypedScope examples.program }
    ensures program { IsTypedProgram examples.program }
    ensures tree { IsTyped examples.program void examples.counted }
    ensures memory { AreTyped (layout examples.program) (examples.world_with 5).memory }
    ensures world { IsTypedWorld examples.program (examples.world_with 5) }
    ensures operated { IsTrue (is_operated examples.counting) }
    ensures operands { AreOperands (layout examples.program) (open_of examples.counting) examples.name examples.operands }
    ensures expression { IsTrue (is_expression examples.counted) }
    ensures begun { ComesFrom (layout examples.program) examples.counted (begun examples.counted) }
    // what its step does
    ensures does { operate examples.scene (examples.world_with 5) [] examples.counting examples.int examples.operands
        ≡ gives (examples.world_with 6) (of_value (integer_value Int (pos 5))) (examples.place ∷ []) }
{}

/// So does the step of `c++`, where `c` holds the greatest int, that of `expressions_never_lack_values`: it is undefined for another cause.
pub fn overflowing_count()
    ensures { IsAmong (fails Overflow examples.somewhere) (moves examples.scene (examples.world_with 2147483647) [] examples.counting_run) }
{}

/// The negative of what a call gives meets each premise of `calls_give_their_types`.
pub fn typed_negation()
    ensures hole { HoleComesFrom (layout examples.program) examples.negated examples.int examples.negation }
    ensures given { IsGiven (layout examples.program) examples.int (integer_value Int (pos 5)) }
{}

/// 5 may be the argument of a function whose parameter is `c`, which meets the premise of `calls_keep_objects_typed`.
pub fn typed_argument()
    ensures { ArgumentsFit examples.program (0 ∷ []) (integer_value Int (pos 5) ∷ []) }
{}

/// An array of two ints, and the type `char`, meet each premise of `initialisers_keep_types`.
pub fn typed_list()
    ensures parts { IsTrue (has_parts (own_type examples.two)) }
    ensures typed { HasType (layout examples.program) examples.two examples.one_of_two }
    ensures character { integer_kind (integer Char) ≡ Some Char }
{}

/// The unit that declares `int c;` meets each premise of `units_give_typed_programs`, and its table that of `first_values_have_their_types`.
pub fn typed_unit()
    ensures table { IsSoundTable no_type }
    ensures typed { IsWellTypedUnit no_type examples.unit }
    ensures proper { IsProperUnit examples.unit }
    ensures program { program_of no_type examples.unit ≡ examples.program }
{}

/// The state in which `main` of `int c; int main(void) {}` runs, and the step to the state behind it, meet each premise of
/// `steps_keep_states_typed`, `typed_steps_are_never_ill`, `typed_calls_get_their_values`, `values_lack_at_closing_braces_alone` and
/// `runs_stay_typed`.
pub fn typed_state()
    ensures program { IsTypedProgram examples.running }
    ensures values { GivesValues examples.running }
    ensures state { IsTypedState examples.running examples.beginning }
    ensures step { Step examples.running examples.beginning examples.behind }
    ensures goes { Goes (machine_of examples.running) 1 examples.beginning examples.behind }
{}

/// A run of the same program on no input begins so, which meets each premise of `runs_begin_typed`.
pub fn typed_beginning()
    ensures program { IsTypedProgram examples.running }
    ensures begins { Begins examples.running [] examples.started }
{}

/// `int main(void) {}`, as the code has it, meets each premise of `typed_programs_run_typed`.
pub fn typed_run()
    ensures table { IsSoundTable examples.types }
    ensures unit { IsTypedUnit examples.types examples.core_unit }
    ensures run { RunsTo (machine_of examples.core_program) [] 0 examples.core_started }
{}

/// Two tables that number their types differently say the same of structs.
pub fn same_tables()
    ensures { AreSameStructs examples.one_table examples.other_table }
{}
