//! What a definition alone tells.

ghost use Rattle.std.specs.Prelude.{◌≡◌};
ghost use Rattle.std.specs.List.{list_any};
ghost use Rattle.dm_macro.specs.Signs as sign;
ghost use Rattle.dm_rules.specs.Rules as rules;

use dm_macro::is_hash;
use dm_spell::punctuator;
use dm_token::{Definition, Place, PpKind, PpToken};

fn is_hash_hash(token: &PpToken) -> bool
    ensures { result ≡ sign.is_hash_hash token.now }
{
    match token.kind {
        PpKind::Punctuator(row) => {
            row == punctuator::HASH_HASH || row == punctuator::HASH_HASH_DIGRAPH
        }
        _ => false,
    }
}

/// Whether a token is one of the operators `#` and `##` (6.10.3.2, 6.10.3.3).
fn is_operator(token: &PpToken) -> bool
    ensures { result ≡ rules.is_operator token.now }
{
    is_hash(token) || is_hash_hash(token)
}

fn has_operator(body: &[PpToken]) -> bool
    ensures { result ≡ list_any rules.is_operator body.now }
{
    body.iter().any(|token| is_operator(token))
}

/// Rule 1, Body: the macro has a value and takes as many arguments as it has parameters, its replacement list has neither `#`
/// nor `##`, and nothing but blanks stands before the list that isn't needed.
pub fn broken_body(definition: &Definition) -> Option<Place>
    ensures { result ≡ rules.broken_body definition.now }
{
    let body = definition.body.items();
    if body.is_empty() || definition.variadic || !definition.head_plain || has_operator(body) {
        Some(definition.place)
    } else {
        None
    }
}
