//! Small definitions and what they become; each is proved by computing.

ghost use Rattle.std.specs.Prelude.{◌≡◌, [], ◌∷◌, Some, None, codes};
ghost use Rattle.dm_int.specs.declared.Kind.TheVariants.{Int, UInt, Char};
ghost use Rattle.dm_type.specs.CTypes.{array, integer, pointer, struct, void};
ghost use Rattle.dm_edit.specs.declared.change.As.TheVariants.{Constant, Enumerator, Function};
ghost use Rattle.dm_judge.specs.Examples.{declared_as, function_like, object_like, parameter, signature};

/// A macro without a parameter list becomes an enumerator where its type is `int`, and else an object; one with a
/// parameter list becomes a function, which returns nothing where its type is `void`.
pub fn definitions_become_declarations()
    ensures enumerator { declared_as [] object_like (signature (integer Int) []) ≡ Some (Enumerator, codes "enum { M = ", codes " };") }
    ensures object { declared_as [] object_like (signature (integer UInt) []) ≡ Some (Constant, codes "static const unsigned int M = ", codes ";") }
    ensures function { declared_as [] function_like (signature (integer Int) (parameter (integer Char) (codes "c") ∷ parameter (pointer (integer Int)) (codes "p") ∷ []))
        ≡ Some (Function, codes "static inline int M(char c, int *p) { return ", codes "; }") }
    ensures without_parameters { declared_as [] function_like (signature (integer Int) []) ≡ Some (Function, codes "static inline int M(void) { return ", codes "; }") }
    ensures without_result { declared_as [] function_like (signature void (parameter (integer Int) (codes "c") ∷ [])) ≡ Some (Function, codes "static inline void M(int c) { ", codes "; }") }
{}

/// Types are spelled round the declarator of the function and round the parameters, and only structs that are visible
/// can be named.
pub fn types_are_spelled_round_declarators()
    ensures pointer_to_array { declared_as [] function_like (signature (pointer (array (integer Int) None)) (parameter (pointer (array (integer Int) None)) (codes "a") ∷ []))
        ≡ Some (Function, codes "static inline int (*M(int (*a)[]))[] { return ", codes "; }") }
    ensures visible { declared_as (0 ∷ []) function_like (signature (integer Int) (parameter (struct 0) (codes "v") ∷ [])) ≡ Some (Function, codes "static inline int M(struct s v) { return ", codes "; }") }
    ensures not_visible { declared_as [] function_like (signature (integer Int) (parameter (struct 0) (codes "v") ∷ [])) ≡ None }
    ensures result_not_visible { declared_as [] function_like (signature (pointer (struct 0)) []) ≡ None }
{}
