//! Where the definition stands that a directive makes.

ghost use Rattle.std.specs.Prelude.{◌≡◌, ℕ, Bool, List, [], ◌∷◌, Some, IsSome, slice_get};
ghost use Rattle.std.specs.Result.{result_unwrap_or};
ghost use Rattle.dm_token.specs.declared.expansion.Definition.{Definition};
ghost use Rattle.dm_token.specs.declared.expansion.Origin.{Origin};
ghost use Rattle.dm_token.specs.declared.token.PpToken.{PpToken};
ghost use Rattle.dm_macro.specs.Forms.{Gives};
ghost use Rattle.dm_unit.specs.Lines.{directive, parts_of};
ghost use Rattle.dm_unit.specs.Sources.{reading_of};
ghost use Rattle.dm_edit.specs.Cuts.{body_end, LiesIn};

/// What a directive of a file defines lies in the bytes of the file, if it has a body: its `#`, the end of its head, blanks, its body and the
/// end of that come in this order inside the file, as an edit of it asks.
pub fn definitions_lie_in_bytes()
    ensures { (file : ℕ) (bytes : List ℕ) (k : ℕ) (start : PpToken) (behind : List PpToken) (origin : Origin) (plain : Bool) (definition : Definition) →
        slice_get (parts_of (result_unwrap_or (reading_of file bytes) [])) k ≡ Some (directive start behind) → Gives (start ∷ behind) origin plain definition →
        IsSome (body_end definition) → LiesIn bytes definition }
{}
