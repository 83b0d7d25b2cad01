//! What holds of the grammar itself.

ghost use Rattle.std.specs.Prelude.{◌≡◌, ◌<◌, ◌≤◌, ℕ, List, Some, length};
ghost use Rattle.dm_syn.specs.declared.declared.Declared.{Declared};
ghost use Rattle.dm_syn.specs.Sources.{Source};
ghost use Rattle.dm_syn.specs.Spans.{external_span};
ghost use Rattle.dm_syn.specs.Trees.{External};
ghost use Rattle.dm_pstmt.specs.Readings.{IsExternalAt, external_at};

/// At a place there is at most one well-formed external declaration, whatever follows it.
pub fn one_external()
    ensures { (source : Source) (names : List Declared) (at : ℕ) (a b : External) → IsExternalAt source names at a → IsExternalAt source names at b → a ≡ b }
{}

/// Reading from left to right, as `specs/Parsing.antt` defines it, gives the well-formed external declaration at a place,
/// and none exactly where there is none.
pub fn reads_externals()
    ensures found { (source : Source) (names : List Declared) (at : ℕ) (it : External) → external_at source names at ≡ Some it → IsExternalAt source names at it }
    ensures only { (source : Source) (names : List Declared) (at : ℕ) (it : External) → IsExternalAt source names at it → external_at source names at ≡ Some it }
{}

/// A well-formed external declaration has one token at least, and ends inside the tokens.
pub fn externals_are_inside()
    ensures { (source : Source) (names : List Declared) (at : ℕ) (it : External) → IsExternalAt source names at it → (at < (external_span it).after) × ((external_span it).after ≤ length source.tokens) }
{}
