//! Small units and trees before and after an edit, and what the definitions say of them; each is proved by computing.

ghost use Rattle.std.specs.Prelude.{◌≡◌, ◌+◌, [], ◌∷◌, Some, true, false, pos};
ghost use Rattle.dm_int.specs.declared.Kind.TheVariants.{Long};
ghost use Rattle.dm_type.specs.CTypes.{integer};
ghost use Rattle.dm_type.specs.Tables.{no_type};
ghost use Rattle.dm_agree.specs.Agreement.{AgreesWhole};
ghost use Rattle.dm_align.specs.Examples as examples;
ghost use Rattle.dm_align.specs.Units.{AreAligned, is_expression, is_unevaluated, IsPlaced};

/// A unit before and after the edit of `MAX(a,b)`, whose parameters are read twice; of a constant that becomes an enumerator; of
/// one that becomes a const object; and of an expression of type void.
pub fn added_declarations_are_aligned()
    ensures function { AreAligned no_type no_type examples.max_old examples.max_new (examples.run_of_max ∷ []) (Some examples.max_put) }
    ensures enumerator { AreAligned no_type no_type examples.two_old examples.two_new (examples.run_of_two ∷ []) (Some (examples.two_put 2)) }
    ensures constant { AreAligned no_type no_type examples.ten_old examples.ten_new (examples.run_of_ten ∷ []) (Some examples.ten_put) }
    ensures void { AreAligned no_type no_type examples.skip_old examples.skip_new (examples.run_of_skip ∷ []) (Some examples.skip_put) }
    ensures other_value { ¬ AreAligned no_type no_type examples.two_old examples.two_new (examples.run_of_two ∷ []) (Some (examples.two_put 3)) }
    ensures void_returned { ¬ AreAligned no_type no_type examples.skip_old examples.skip_returned (examples.run_of_skip ∷ []) (Some examples.skip_put) }
{}

/// In `ID(ID(y))` with `#define ID(x) (x)` two runs stand at one node, and two calls take their place, not one and not none.
pub fn calls_in_calls_agree()
    ensures two { AgreesWhole examples.id_rewriting (examples.id_called 23 30 (examples.id_called 25 29 (examples.value 2 27 0))) examples.id_tree }
    ensures one { ¬ AgreesWhole examples.id_rewriting (examples.id_called 23 27 (examples.value 2 25 0)) examples.id_tree }
    ensures none { ¬ AgreesWhole examples.id_rewriting (examples.value 2 23 2) examples.id_tree }
{}

/// What a run gives is converted as before.
pub fn converted_calls_agree()
    ensures { AgreesWhole examples.char_rewriting examples.char_new examples.char_old }
{}

/// With `#define NEXT(x) ((x)+1)` a call of the function agrees with its run, and no other tree does: with another constant or another
/// operand in the body, of another function, of another type, or where the run stays. The arguments of `MAX(x,y)` aren't exchanged.
pub fn other_trees_differ()
    ensures same { AgreesWhole (examples.next_rewriting (examples.next 0 1 10)) (examples.next_called 1 examples.int) examples.next_tree }
    ensures constant { ¬ AgreesWhole (examples.next_rewriting (examples.next 0 2 10)) (examples.next_called 1 examples.int) examples.next_tree }
    ensures dropped { ¬ AgreesWhole (examples.next_rewriting (examples.value 0 11 1)) (examples.next_called 1 examples.int) examples.next_tree }
    ensures function { ¬ AgreesWhole (examples.next_rewriting (examples.next 0 1 10)) (examples.next_called 3 examples.int) examples.next_tree }
    ensures kind { ¬ AgreesWhole (examples.next_rewriting (examples.next 0 1 10)) (examples.next_called 1 (integer Long)) examples.next_tree }
    ensures left { ¬ AgreesWhole (examples.next_rewriting (examples.next 0 1 10)) (examples.next 2 1 27) examples.next_tree }
    ensures exchanged { ¬ AgreesWhole examples.max_rewriting (examples.max_called 4 3) examples.max_tree }
    ensures in_order { AgreesWhole examples.max_rewriting (examples.max_called 3 4) examples.max_tree }
{}

/// A run isn't placed where an occurrence in it stands in an operand of `sizeof`; one whose occurrence is `sizeof(y)` is.
pub fn runs_in_sizeof_are_not_placed()
    ensures inside { ¬ IsPlaced examples.sized_unit examples.run_of_size }
    ensures expression { is_expression examples.sized_unit examples.run_of_size.span ≡ true }
    ensures whole { IsPlaced examples.sized_unit examples.run_with_size }
{}
