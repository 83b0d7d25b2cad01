//! What holds of the grammar itself.

ghost use Rattle.std.specs.Prelude.{◌≡◌, ℕ, List, Some};
ghost use Rattle.dm_syn.specs.declared.declared.Declared.{Declared};
ghost use Rattle.dm_syn.specs.Sources.{Source};
ghost use Rattle.dm_syn.specs.Trees.{Expr, TypeName};
ghost use Rattle.dm_pexpr.specs.Readings.{IsExpression, IsClosedName, expression_at, type_name_at};

/// At a place there is at most one well-formed expression that one of `) ] } : ;` or the end of the tokens follows.
pub fn one_expression()
    ensures { (source : Source) (names : List Declared) (at : ℕ) (a b : Expr) → IsExpression source names at a → IsExpression source names at b → a ≡ b }
{}

/// At a place there is at most one well-formed type name that `)` or the end of the tokens follows.
pub fn one_type_name()
    ensures { (source : Source) (names : List Declared) (at : ℕ) (a b : TypeName) → IsClosedName source names at a → IsClosedName source names at b → a ≡ b }
{}

/// Reading from left to right, as `specs/Parsing.antt` defines it, gives the well-formed expression at a place, and none
/// exactly where there is none.
pub fn reads_expressions()
    ensures found { (source : Source) (names : List Declared) (at : ℕ) (it : Expr) → expression_at source names at ≡ Some it → IsExpression source names at it }
    ensures only { (source : Source) (names : List Declared) (at : ℕ) (it : Expr) → IsExpression source names at it → expression_at source names at ≡ Some it }
{}

/// Reading from left to right, as `specs/Parsing.antt` defines it, gives the well-formed type name at a place, and none
/// exactly where there is none.
pub fn reads_type_names()
    ensures found { (source : Source) (names : List Declared) (at : ℕ) (it : TypeName) → type_name_at source names at ≡ Some it → IsClosedName source names at it }
    ensures only { (source : Source) (names : List Declared) (at : ℕ) (it : TypeName) → IsClosedName source names at it → type_name_at source names at ≡ Some it }
{}
