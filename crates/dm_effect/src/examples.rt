//! Small trees and units, and what the definitions say of them; each is proved by computing.

ghost use Rattle.std.specs.Prelude.{◌≡◌, [], ◌∷◌, true, false};
ghost use Rattle.dm_int.specs.declared.Kind.TheVariants.{Int, UInt};
ghost use Rattle.dm_type.specs.CTypes.{integer, pointer, struct};
ghost use Rattle.dm_type.specs.Tables.{no_type};
ghost use Rattle.dm_effect.specs.Examples as examples;
ghost use Rattle.dm_effect.specs.Quiet.{is_quiet};
ghost use Rattle.dm_effect.specs.Safe.{is_safe};
ghost use Rattle.dm_effect.specs.Sequencing.{beside, is_first};
ghost use Rattle.dm_effect.specs.Stable.{is_stable, is_stable_among};

/// In `((a)>(b)?(a):(b))` the operands of the comparison come first, and what it picks doesn't; nor does an operand of `sizeof`.
pub fn operands_come_first()
    ensures left { is_first (0 ∷ 0 ∷ []) (examples.greater (examples.reading 1 0) (examples.reading 2 1)) ≡ true }
    ensures right { is_first (0 ∷ 1 ∷ []) (examples.greater (examples.reading 1 0) (examples.reading 2 1)) ≡ true }
    ensures second { is_first (1 ∷ []) (examples.greater (examples.reading 1 0) (examples.reading 2 1)) ≡ false }
    ensures third { is_first (2 ∷ []) (examples.greater (examples.reading 1 0) (examples.reading 2 1)) ≡ false }
    ensures unevaluated { is_first (0 ∷ []) (examples.size_of 1 (examples.reading 2 0)) ≡ false }
{}

/// Beside an operand are the other operands of operators and calls round it, from the inside out, with the name of a function
/// that is called; an operand of `&&` or `?:` has none.
pub fn unsequenced_operands_are_beside()
    ensures sum { beside (0 ∷ []) examples.sum_with_call ≡ (1 ∷ []) ∷ [] }
    ensures nested { beside (0 ∷ 1 ∷ []) (examples.sum (examples.sum (examples.reading 1 0) (examples.reading 2 0)) (examples.reading 3 0)) ≡ (0 ∷ 0 ∷ []) ∷ (1 ∷ []) ∷ [] }
    ensures called { beside (1 ∷ []) (examples.called 1 2 (examples.reading 2 0 ∷ examples.reading 3 0 ∷ [])) ≡ (0 ∷ []) ∷ (2 ∷ []) ∷ [] }
    ensures sequenced { beside (0 ∷ []) (examples.and (examples.reading 1 0) (examples.reading 2 0)) ≡ [] }
    ensures picked { beside (0 ∷ []) (examples.greater (examples.reading 1 0) (examples.reading 2 0)) ≡ [] }
{}

/// A call is quiet where the function is defined before and does nothing but return; a store isn't, also in an operand of
/// `sizeof`.
pub fn calls_of_earlier_functions_are_quiet()
    ensures returning { is_quiet examples.calls (examples.called 40 1 []) ≡ true }
    ensures storing { is_quiet examples.calls (examples.called 40 2 []) ≡ false }
    ensures itself { is_quiet examples.calls (examples.called 40 3 []) ≡ false }
    ensures later { is_quiet examples.calls (examples.called 40 4 []) ≡ false }
    ensures store { is_quiet examples.calls (examples.set_to 40 0 (examples.constant 41 1)) ≡ false }
    ensures unevaluated { is_quiet examples.calls (examples.size_of 40 (examples.set_to 41 0 (examples.constant 42 1))) ≡ false }
{}

/// Beside a call that stores, an automatic object of which no address is taken keeps its value, and the address of an object is
/// the same throughout. Other objects, what is behind a pointer, the address of a member and `sizeof` don't count as such.
pub fn automatic_objects_are_stable()
    ensures of_static { is_stable (examples.with_objects (examples.global (integer Int))) examples.sum_with_call (0 ∷ []) (examples.reading 21 0) ≡ false }
    ensures of_automatic { is_stable (examples.with_objects (examples.local (integer Int))) examples.sum_with_call (0 ∷ []) (examples.reading 22 1) ≡ true }
    ensures written { is_stable_among (examples.with_objects (examples.local (integer Int))) (examples.set_to 40 1 (examples.constant 41 1) ∷ []) (examples.reading 22 1) ≡ false }
    ensures behind_pointer { is_stable (examples.with_objects (examples.local (pointer (integer Int)))) examples.sum_with_call (0 ∷ []) examples.followed ≡ false }
    ensures address { is_stable (examples.with_objects (examples.global (integer Int))) examples.sum_with_call (0 ∷ []) examples.address_of ≡ true }
    ensures of_member { is_stable (examples.with_objects (examples.global (struct 0))) examples.sum_with_call (0 ∷ []) examples.member_address ≡ false }
    ensures size { is_stable (examples.with_objects (examples.local (integer Int))) examples.sum_with_call (0 ∷ []) examples.size ≡ false }
{}

/// A local is safe where it is initialised before, and a sum where its kind wraps; an object in its own initialiser isn't, nor a
/// member or a negative.
pub fn set_integers_are_safe()
    ensures constant { is_safe no_type examples.unset_local (examples.constant 40 1) ≡ true }
    ensures initialised { is_safe no_type (examples.set_local (integer Int)) (examples.reading 40 1) ≡ true }
    ensures unset { is_safe no_type examples.unset_local (examples.reading 40 1) ≡ false }
    ensures inside { is_safe no_type (examples.set_local (integer Int)) (examples.reading 11 1) ≡ false }
    ensures overflow { is_safe no_type (examples.set_local (integer Int)) (examples.plus_one (integer Int)) ≡ false }
    ensures wrapping { is_safe no_type (examples.set_local (integer UInt)) (examples.plus_one (integer UInt)) ≡ true }
    ensures negative { is_safe no_type (examples.set_local (integer Int)) (examples.minus 1) ≡ false }
    ensures of_member { is_safe no_type (examples.with_objects (examples.global (struct 0))) examples.member_value ≡ false }
{}
