//! The operator `#` in a function-like macro's body (6.10.3.2).

ghost use Rattle.std.specs.Prelude.{◌≡◌, ◌+◌, IfOk, false, option_map, slice_get};
ghost use Rattle.std.specs.List.{list_any};
ghost use Rattle.std.specs.Option.{option_map_or};
ghost use Rattle.dm_macro.specs.Signs as sign;
ghost use Rattle.dm_macro.specs.Forms as form;
ghost use Rattle.dm_macro.specs.NameSets.{has_name};

use crate::name_set::{has, set_of};
use crate::sign::{VARIABLE_ARGUMENTS, is_hash, is_identifier};
use dm_token::{Definition, Memory, Place, PpToken, Text};
use std::alloc::Global;
use std::collections::HashSet;

/// The place of the first `#` that isn't followed by a parameter (6.10.3.2p1).
pub(crate) fn bare_hash(alloc: Global, definition: &Definition) -> Result<Option<Place>, Memory>
    ensures { IfOk result (λ found. found ≡ option_map (λ token. token.place) (form.bare_hash definition.now)) }
{
    let body = definition.body.items();
    match &definition.parameters {
        None => Ok(None),
        Some(_) if !has_hash(body) => Ok(None),
        Some(names) => {
            let set = set_of(alloc, names.items())?;
            Ok(first_bare_hash(&set, definition.variadic, body))
        }
    }
}

fn has_hash(body: &[PpToken]) -> bool
    ensures { result ≡ list_any sign.is_hash body.now }
{
    body.iter().any(|token| is_hash(token))
}

fn first_bare_hash(names: &HashSet<Text>, variadic: bool, body: &[PpToken]) -> Option<Place>
    ensures { result ≡ option_map (λ token. token.place) (form.hash_not_before (form.is_parameter (has_name names.now) variadic) body.now) }
{
    for (index, token) in body.iter().enumerate() {
        if is_hash(token) && !stands_parameter(names, variadic, body, index + 1) {
            return Some(token.place);
        }
    }
    None
}

/// Whether a parameter stands at a position of the body.
fn stands_parameter(names: &HashSet<Text>, variadic: bool, body: &[PpToken], at: usize) -> bool
    ensures { result ≡ option_map_or (form.is_parameter (has_name names.now) variadic) (slice_get body.now at) false }
{
    match body.get(at) {
        Some(token) => is_parameter(names, variadic, token),
        None => false,
    }
}

fn is_parameter(names: &HashSet<Text>, variadic: bool, token: &PpToken) -> bool
    ensures { result ≡ form.is_parameter (has_name names.now) variadic token.now }
{
    is_identifier(token)
        && (has(names, &token.spelling)
            || (variadic && token.spelling.bytes() == VARIABLE_ARGUMENTS.as_slice()))
}
