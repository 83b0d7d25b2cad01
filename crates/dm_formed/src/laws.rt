//! What is read is well formed.

ghost use Rattle.std.specs.Prelude.{◌≡◌, List, [], zero, Ok};
ghost use Rattle.dm_token.specs.declared.token.CToken.{CToken};
ghost use Rattle.dm_token.specs.declared.token.Token.{Token};
ghost use Rattle.dm_ctok.specs.Tokens.{ctokens_of};
ghost use Rattle.dm_syn.specs.Trees.{External};
ghost use Rattle.dm_typing.specs.Sound.{AreSoundTokens};
ghost use Rattle.dm_edecl.specs.Placing.{AreExternals};
ghost use Rattle.dm_eexpr.specs.Alone.{source_alone};
ghost use Rattle.dm_reading.specs.Syntax.{IsSyntax};

/// Each constant among the tokens of phase 7 has a promoted kind, and a value of it (6.4.4.1p5, 6.4.4.4p10).
pub fn constants_are_sound()
    ensures { (tokens : List Token) (made : List CToken) → ctokens_of tokens ≡ Ok made → AreSoundTokens made }
{}

/// The syntax of a unit is well formed in one source, in which no name is a type from outside.
pub fn external_declarations_are_formed()
    ensures { (tokens : List CToken) (externals : List External) → IsSyntax tokens externals → AreExternals (source_alone tokens) [] zero externals }
{}
