//! Small programs by the machine's definitions, each run by a choice of steps: 0 is the leftmost, 9 here always the last. What they come
//! to is what ISO/IEC 9899:2011 says; each is proved by computing.

ghost use Rattle.std.specs.Prelude.{◌≡◌, [], ◌∷◌, ◌++◌, Some, codes};
ghost use Rattle.dm_int.specs.declared.Kind.TheVariants.{Int, Long};
ghost use Rattle.dm_int.specs.declared.Op.TheVariants.{Sub, Less, Equal};
ghost use Rattle.dm_type.specs.CTypes.{integer};
ghost use Rattle.dm_meaning.specs.declared.cause.Cause.TheVariants.{Overflow, Division, Conflict, Null, Bounds, Pointer, Life, Unset, OtherType, Const, NoValue, External};
ghost use Rattle.dm_meaning.specs.Machines.{going, exited, undefined};
ghost use Rattle.dm_meaning.specs.Refinement.{Refines};
ghost use Rattle.dm_meaning.specs.Replaced as replaced;
ghost use Rattle.dm_meaning.specs.Replaced.{IsReplacement};
ghost use Rattle.dm_meaning.specs.ReplacedUnits.{IsUnitReplacement};
ghost use Rattle.dm_meaning.specs.States.{State};
ghost use Rattle.dm_meaning.specs.Units.{Begins, machine_of, program_of};
ghost use Rattle.dm_meaning.specs.Examples as examples;
ghost use Rattle.dm_meaning.specs.Examples.{at, by_choice};

/// `return 0;` ends after four steps, and not before.
pub fn the_least_program_ends_after_four_steps()
    ensures before { by_choice 0 3 [] examples.nothing ≡ Some (going, []) }
    ensures after { by_choice 0 4 [] examples.nothing ≡ Some (exited 0, []) }
{}

/// Unsequenced stores to one object are undefined, and so is a read of it behind an unsequenced store (6.5p2); behind a comma
/// neither is.
pub fn unsequenced_stores_conflict()
    // i = i++ (6.5p2)
    ensures assigned { by_choice 0 60 [] examples.assigned_count ≡ Some (undefined Conflict (at 7), []) }
    // a[i] = i++ where i is read before it is counted, and after
    ensures from_the_left { by_choice 0 60 [] examples.indexed_count ≡ Some (exited 1, []) }
    ensures from_the_right { by_choice 9 60 [] examples.indexed_count ≡ Some (undefined Conflict (at 7), []) }
    // i++ + i likewise, but not i++, i
    ensures sum { by_choice 0 60 [] examples.counted_sum ≡ Some (undefined Conflict (at 7), []) }
    ensures comma { by_choice 0 60 [] examples.counted_comma ≡ Some (exited 1, []) }
{}

/// The operands of an operator are evaluated in any order: what their calls write and read comes in the order of the steps.
pub fn calls_come_in_any_order()
    ensures from_the_left { by_choice 0 60 [] examples.two_writers ≡ Some (exited 3, codes "fg") }
    ensures from_the_right { by_choice 9 60 [] examples.two_writers ≡ Some (exited 3, codes "gf") }
    ensures read_from_the_left { by_choice 0 60 (7 ∷ 5 ∷ []) examples.two_readers ≡ Some (exited 2, []) }
    ensures read_from_the_right { by_choice 9 60 (7 ∷ 5 ∷ []) examples.two_readers ≡ Some (exited 254, []) }
    ensures nested { by_choice 0 60 [] examples.nested_call ≡ Some (exited 12, []) }
{}

/// The right operand of `&&` is evaluated only where the left one isn't 0.
pub fn and_stops_at_0()
    ensures stopped { by_choice 0 60 [] (examples.and_count 0) ≡ Some (exited 5, []) }
    ensures counted { by_choice 0 60 [] (examples.and_count 2) ≡ Some (exited 6, []) }
{}

/// `break`, `continue` and `switch` go where they are to, and a loop without an end goes on.
pub fn statements_jump()
    ensures by_break { by_choice 0 120 [] examples.loop_with_break ≡ Some (exited 3, []) }
    ensures by_continue { by_choice 0 200 [] examples.loop_with_continue ≡ Some (exited 8, []) }
    ensures into_the_next_case { by_choice 0 60 [] (examples.switched 1) ≡ Some (exited 11, []) }
    ensures to_a_case { by_choice 0 60 [] (examples.switched 2) ≡ Some (exited 10, []) }
    ensures to_default { by_choice 0 60 [] (examples.switched 3) ≡ Some (exited 7, []) }
    ensures without_end { by_choice 0 23 [] examples.endless_writer ≡ Some (going, codes "xxxx") }
{}

/// Members without a value and pointers to objects whose lifetime has ended may be copied, and their use is undefined.
pub fn unset_and_dead_are_carried_and_not_used()
    ensures copied { by_choice 0 60 [] (examples.struct_copy 0) ≡ Some (exited 5, []) }
    ensures unset { by_choice 0 60 [] (examples.struct_copy 1) ≡ Some (undefined Unset (at 7), []) }
    ensures carried { by_choice 0 60 [] examples.dead_pointer_carried ≡ Some (exited 0, []) }
    ensures followed { by_choice 0 60 [] examples.dead_pointer_followed ≡ Some (undefined Life (at 7), []) }
{}

/// Objects have the values that their initialisers give, and 0 where a list in braces gives none. Nothing is read behind an
/// array's last element, and a string literal has its text.
pub fn objects_have_first_values()
    ensures listed { by_choice 0 60 [] (examples.listed 0) ≡ Some (exited 4, []) }
    ensures not_listed { by_choice 0 60 [] (examples.listed 1) ≡ Some (exited 0, []) }
    ensures one_past { by_choice 0 60 [] (examples.listed 2) ≡ Some (undefined Bounds (at 7), []) }
    ensures beyond { by_choice 0 60 [] (examples.listed 3) ≡ Some (undefined Bounds (at 8), []) }
    ensures fixed { by_choice 0 60 [] examples.fixed_object ≡ Some (exited 3, []) }
    ensures text { by_choice 0 60 [] examples.put_text ≡ Some (exited 0, codes "hi" ++ 10 ∷ []) }
    // a list leaves what was stored in its parts before it began, and gives 0 to those that it lacks
    ensures kept { by_choice 0 120 [] (examples.listed_again 0) ≡ Some (exited 3, []) }
    ensures lacking { by_choice 0 120 [] (examples.listed_again 1) ≡ Some (exited 0, []) }
{}

/// The const of a result, and that of the elements of a row, makes no other type of it (6.7.3, 6.9.1p12).
pub fn const_makes_no_other_type()
    ensures result { by_choice 0 60 [] examples.const_void ≡ Some (exited 0, []) }
    ensures rows { by_choice 0 120 [] examples.const_rows ≡ Some (exited 3, []) }
{}

/// A run begins on bytes alone.
pub fn inputs_are_bytes()
    ensures byte { by_choice 0 60 (255 ∷ 1 ∷ []) examples.two_readers ≡ Some (exited 254, []) }
    ensures beyond { (state : State) → Begins examples.two_readers (256 ∷ []) state → ⊥ }
{}

/// Division by 0, overflow, the end of a function without the value that it is to return, a call of one that isn't defined, and
/// a store into a const object are undefined, each at its node.
pub fn other_causes_are_met_at_their_nodes()
    ensures division { by_choice 0 60 [] (examples.quotient 7 0) ≡ Some (undefined Division (at 7), []) }
    ensures overflow { by_choice 0 60 [] examples.overflow ≡ Some (undefined Overflow (at 7), []) }
    ensures no_value { by_choice 0 60 [] examples.no_value ≡ Some (undefined NoValue (at 9), []) }
    ensures external { by_choice 0 60 [] examples.not_defined ≡ Some (undefined External (at 7), []) }
    ensures constant { by_choice 0 60 [] examples.stored_const ≡ Some (undefined Const (at 7), []) }
    // a member of what is no struct, even if it has such a part (6.5p7)
    ensures other_type { by_choice 0 60 [] examples.struct_over_array ≡ Some (undefined OtherType (at 7), []) }
    // an array that decays where there is none
    ensures no_array { by_choice 0 60 [] examples.array_over_int ≡ Some (undefined OtherType (at 7), []) }
    // the text of an object that the unit doesn't define
    ensures elsewhere { by_choice 0 60 [] examples.put_elsewhere ≡ Some (undefined External (at 7), []) }
{}

/// Each call has objects of its own but for static ones, and `exit` ends all. A store by a call is no conflict with its caller
/// (6.5.2.2p10), but those of two arguments are one with each other.
pub fn functions_have_frames_of_their_own()
    ensures recursive { by_choice 0 200 [] examples.factorial ≡ Some (exited 24, []) }
    ensures static_local { by_choice 0 60 [] examples.static_local ≡ Some (exited 4, []) }
    ensures arguments { by_choice 0 60 [] examples.counted_arguments ≡ Some (undefined Conflict (at 7), []) }
    // a store by a callee is no conflict with the caller (6.5.2.2p10)
    ensures callee_first { by_choice 0 60 [] examples.stored_through ≡ Some (exited 6, []) }
    ensures callee_last { by_choice 9 60 [] examples.stored_through ≡ Some (exited 1, []) }
    ensures ended { by_choice 0 60 [] examples.exiting ≡ Some (exited 3, []) }
{}

/// Pointers into one array have a distance and an order; those into two have none, and may be compared only for equality. A
/// null pointer leads to no object.
pub fn pointers_keep_to_their_objects()
    ensures distance { by_choice 0 60 [] (examples.pointers Sub (integer Long) 2 0) ≡ Some (exited 2, []) }
    ensures order { by_choice 0 60 [] (examples.pointers Less (integer Int) 0 2) ≡ Some (exited 1, []) }
    ensures apart { by_choice 0 60 [] (examples.apart_pointers Less) ≡ Some (undefined Pointer (at 7), []) }
    ensures equal { by_choice 0 60 [] (examples.apart_pointers Equal) ≡ Some (exited 0, []) }
    ensures null { by_choice 0 60 [] examples.null_followed ≡ Some (undefined Null (at 7), []) }
{}

/// What is stored is converted to the type of its object, a string literal fills an array with 0 behind its text, and an object
/// without a value can't be read. `continue` and `break` do in a `do` loop what they are to.
pub fn values_fit_their_types()
    ensures text { by_choice 0 60 [] (examples.text_copied 1) ≡ Some (exited 105, []) }
    ensures padded { by_choice 0 60 [] (examples.text_copied 3) ≡ Some (exited 0, []) }
    // -56 modulo 256
    ensures narrow { by_choice 0 60 [] examples.narrow_update ≡ Some (exited 200, []) }
    ensures jumps { by_choice 0 200 [] examples.do_with_both ≡ Some (exited 4, []) }
    ensures unset { by_choice 0 60 [] examples.unset_read ≡ Some (undefined Unset (at 7), []) }
{}

/// A program in which an enumerator stands in place of a constant expression meets each premise of `enumerated_refines`, and its
/// unit each one of `units_refine`.
pub fn enumerators_refine()
    ensures constant { by_choice 0 60 [] (program_of examples.types examples.six_unit) ≡ Some (exited 6, []) }
    ensures enumerated { by_choice 0 60 [] (program_of examples.types examples.enumerated_unit) ≡ Some (exited 6, []) }
    ensures new { replaced.new_of examples.enumerating_six ≡ program_of examples.types examples.enumerated_unit }
    ensures premises { IsReplacement examples.enumerating_six }
    ensures refines { Refines (machine_of (replaced.new_of examples.enumerating_six)) (machine_of examples.enumerating_six.old) }
    ensures unit_premises { IsUnitReplacement examples.types examples.enumerated_unit examples.six_unit examples.beyond_six }
    ensures units_refine { Refines (machine_of (program_of examples.types examples.enumerated_unit)) (machine_of (program_of examples.types examples.six_unit)) }
{}
