//! What holds of the syntax of a translation unit.

ghost use Rattle.std.specs.Prelude.{◌≡◌, ℕ, List};
ghost use Rattle.dm_token.specs.declared.token.CToken.{CToken};
ghost use Rattle.dm_syn.specs.Trees.{External};
ghost use Rattle.dm_reading.specs.Syntax.{IsSyntax, IsRefusedAt};

/// A unit has at most one syntax.
pub fn one_syntax()
    ensures { (tokens : List CToken) (a b : List External) → IsSyntax tokens a → IsSyntax tokens b → a ≡ b }
{}

/// A unit's syntax is refused at no token, or at one.
pub fn one_refusal()
    ensures { (tokens : List CToken) (a b : ℕ) → IsRefusedAt tokens a → IsRefusedAt tokens b → a ≡ b }
{}

/// A unit that has a syntax is refused at no token.
pub fn no_refusal_of_syntax()
    ensures { (tokens : List CToken) (externals : List External) (at : ℕ) → IsSyntax tokens externals → ¬ IsRefusedAt tokens at }
{}
