//! Small units that meet the premises of the laws.

ghost use Rattle.std.specs.Prelude.{[], ◌∷◌, None, Some};
ghost use Rattle.dm_type.specs.Tables.{no_type};
ghost use Rattle.dm_tree.specs.Typing.{IsWellTypedUnit};
ghost use Rattle.dm_meaning.specs.Refinement.{Refines};
ghost use Rattle.dm_meaning.specs.Units.{machine_of, program_of};
ghost use Rattle.dm_effect.specs.Scoped.{IsScopedUnit};
ghost use Rattle.dm_sound.specs.TypedTrees.{IsSoundTable};
ghost use Rattle.dm_align.specs.Examples as examples;
ghost use Rattle.dm_align.specs.Units.{AreAligned};

/// `int f(void) { return TWO; }` with `enum { TWO = (1+1) };` in place of `#define TWO (1+1)` refines the unit with the macro. That unit and
/// itself meet the premises where nothing is put in.
pub fn an_enumerator_refines()
    ensures old_typed { IsWellTypedUnit no_type examples.two_old }
    ensures new_typed { IsWellTypedUnit no_type examples.two_new }
    ensures scoped { IsScopedUnit examples.two_new }
    ensures unread { AreAligned no_type no_type examples.two_old examples.two_old [] None }
    ensures aligned { AreAligned no_type no_type examples.two_old examples.two_new (examples.run_of_two ∷ []) (Some (examples.two_put 2)) }
    ensures refines { Refines (machine_of (program_of no_type examples.two_new)) (machine_of (program_of no_type examples.two_old)) }
{}

/// `unsigned f(void) { return TEN; }` with `static const unsigned TEN = 10u;` in place of `#define TEN 10u` refines the unit with the macro.
pub fn a_constant_refines()
    ensures old_typed { IsWellTypedUnit no_type examples.ten_old }
    ensures new_typed { IsWellTypedUnit no_type examples.ten_new }
    ensures scoped { IsScopedUnit examples.ten_new }
    ensures table { IsSoundTable no_type }
    ensures aligned { AreAligned no_type no_type examples.ten_old examples.ten_new (examples.run_of_ten ∷ []) (Some examples.ten_put) }
{}
