//! What the definitions that the contracts cite mean.

ghost use Rattle.std.specs.Prelude.{◌≡◌, ℕ, List, [], ◌∷◌, Some, None, option_map};
ghost use Rattle.dm_token.specs.declared.expansion.Mark.{Mark};
ghost use Rattle.dm_token.specs.Prefixes.{IsLongestCommonPrefix};
ghost use Rattle.dm_ctok.specs.Escapes.{element, elements};
ghost use Rattle.dm_ctok.specs.Joins.{common};

/// The values of what stands between quotes are those of its characters and escape sequences, one after another, as long
/// as each has one.
pub fn elements_in_turn()
    ensures none { elements [] ≡ Some [] }
    ensures some { (bytes behind : List ℕ) (value : ℕ) → element bytes ≡ Some (value, behind) →
        elements bytes ≡ option_map (λ values. value ∷ values) (elements behind) }
    ensures bad { (byte : ℕ) (bytes : List ℕ) → element (byte ∷ bytes) ≡ None → elements (byte ∷ bytes) ≡ None }
{}

/// What the trails of joined literals share is their longest common prefix.
pub fn longest_common_prefix()
    ensures { (left right : List Mark) → IsLongestCommonPrefix left right (common left right) }
{}
