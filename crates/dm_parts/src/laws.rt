//! That the count of tokens which begin before one is its position among the tokens of phase 7.

ghost use Rattle.std.specs.Prelude.{◌≡◌, ◌+◌, ℕ, List, Ok, Some, IsSomeAnd, length, slice_get, suc};
ghost use Rattle.dm_ctok.specs.Tokens.{ctokens_of};
ghost use Rattle.dm_runs.specs.Spans.{begun_before};
ghost use Rattle.dm_token.specs.declared.token.CToken.{CToken};
ghost use Rattle.dm_token.specs.declared.token.Token.{Token};

/// As many tokens of phase 7 are made of preprocessing tokens as begin among these, and one that begins one stands at the position of those
/// that begin before it: the token there has its place.
pub fn tokens_begin_where_they_are_counted()
    ensures count { (tokens : List Token) (made : List CToken) → ctokens_of tokens ≡ Ok made → length made ≡ begun_before tokens (length tokens) }
    ensures places { (tokens : List Token) (made : List CToken) (n : ℕ) (token : Token) → ctokens_of tokens ≡ Ok made → slice_get tokens n ≡ Some token →
        begun_before tokens (suc n) ≡ begun_before tokens n + 1 → IsSomeAnd (slice_get made (begun_before tokens n)) (λ one. one.place ≡ token.pp.place) }
{}
