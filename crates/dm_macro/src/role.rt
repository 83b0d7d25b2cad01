//! What the tokens of a replacement list are (6.10.3.1 to 6.10.3.3), found once for all expansions of its macro.

ghost use Rattle.std.specs.Prelude.{◌≡◌, ◌≤◌, ◌<◌, ◌+◌, ℕ, true, Some, None, List as Sequence, take, drop, slice_index_or, ◌∷◌, ◌++◌, length, cond, IfOk, OnOk};
ghost use Rattle.std.specs.List.{list_any};
ghost use Rattle.dm_token.specs.declared.token.PpToken.{PpToken as Token};
ghost use Rattle.dm_macro.specs.Signs as sign;
ghost use Rattle.dm_macro.specs.Bodies as bodies;
ghost use Rattle.dm_macro.specs.Roles.{part_with, parts_with, last_of, AreLast, IsRole, IsRoleAt, AreRolesOf, AreRoles, AreCounts};

use crate::named::Parameters;
use crate::sign::{is_hash, is_hash_hash};
use dm_token::{Definition, Memory, PpToken};
use std::alloc::Global;

/// What a token of a replacement list is. A parameter has its position, and says which of its places in the list this
/// is, counted from 0.
#[derive(Clone, Copy)]
pub enum Role {
    /// Any other token.
    Plain,
    /// `#`, with the parameter behind it.
    Hash {
        parameter: u32,
    },
    /// A parameter beside `##`.
    Beside {
        parameter: u32,
        occurrence: u32,
    },
    /// Any other parameter, and whether this is its last place.
    Whole {
        parameter: u32,
        occurrence: u32,
        last: bool,
    },
    /// `##`.
    Paste,
}

/// What each token of a replacement list is, where a parameter behind `#` is part of that, and whether `##` is among them.
#[derive(Drop)]
pub(crate) struct Roles {
    pub(crate) tokens: Vec<Option<Role>>,
    pub(crate) pastes: bool,
}

// The number of a parameter or of one of its places.
fn small(number: usize) -> Result<u32, Memory>
    ensures { IfOk result (λ small. small ≡ number) }
{
    if number > u32::MAX as usize {
        return Err(Memory);
    }
    Ok(number as u32)
}

// How often a parameter is counted.
fn count_of(counts: &[u32], parameter: usize) -> u32
    ensures { result ≡ slice_index_or counts.now parameter 0 }
{
    match counts.get(parameter) {
        None => 0,
        Some(count) => *count,
    }
}

// Counts a parameter once more.
fn add_to(counts: &mut Vec<u32>, parameter: usize) -> Result<(), Memory>
    ensures { OnOk result ((other : ℕ) → slice_index_or counts.new.items other 0 ≡ slice_index_or counts.old.items other 0 + cond (bodies.is_at other (Some parameter)) 1 0) }
{
    'places: while counts.len() <= parameter {
        counts.push(0)?;
    }
    let count = counts[parameter];
    if count == u32::MAX {
        return Err(Memory);
    }
    counts[parameter] = count + 1;
    Ok(())
}

// Counts the parameter that a token names.
fn count(parameters: &Parameters, token: &PpToken, counts: &mut Vec<u32>) -> Result<(), Memory>
    ensures { OnOk result ((other : ℕ) → slice_index_or counts.new.items other 0 ≡ slice_index_or counts.old.items other 0 + cond (bodies.is_at other (bodies.parameter_of parameters.now token.now)) 1 0) }
{
    if let Some(parameter) = parameters.parameter_of(token) {
        add_to(counts, parameter)?;
    }
    Ok(())
}

// How often each parameter is named.
fn counts_of(alloc: Global, parameters: &Parameters, body: &[PpToken]) -> Result<Vec<u32>, Memory>
    ensures { IfOk result (λ counts. AreCounts parameters.now body.now counts.items) }
{
    let mut counts = Vec::new(alloc);
    for token in body {
        count(parameters, token, &mut counts)?;
    }
    Ok(counts)
}

// The parameter that the first of these tokens names.
#[tactic(auto, unfolding(crate::specs::Bodies::first_parameter))]
fn first_parameter(parameters: &Parameters, behind: &[PpToken]) -> Option<usize>
    ensures { result ≡ bodies.first_parameter parameters.now behind.now }
{
    match behind {
        [] => None,
        [first, ..] => parameters.parameter_of(first),
    }
}

#[tactic(auto, unfolding(crate::specs::Bodies::is_first))]
fn begins_with_paste(behind: &[PpToken]) -> bool
    ensures { result ≡ bodies.is_first sign.is_hash_hash behind.now }
{
    match behind {
        [] => false,
        [first, ..] => is_hash_hash(first),
    }
}

fn ends_with_paste(before: &[PpToken]) -> bool
    ensures { result ≡ bodies.is_last sign.is_hash_hash before.now }
{
    match before {
        [] => false,
        [.., last] => is_hash_hash(last),
    }
}

fn ends_with_hash(before: &[PpToken]) -> bool
    ensures { result ≡ bodies.is_last sign.is_hash before.now }
{
    match before {
        [] => false,
        [.., last] => is_hash(last),
    }
}

// A token that names no parameter.
#[tactic(auto, unfolding(crate::specs::Bodies::token_part))]
fn token_role(parameters: &Parameters, token: &PpToken, behind: &[PpToken]) -> Result<Role, Memory>
    ensures role { IfOk result (λ role. part_with token.now role ≡ bodies.token_part token.now (bodies.first_parameter parameters.now behind.now)) }
    ensures last { IfOk result (λ role. last_of (Some role) ≡ None) }
{
    let Some(parameter) = first_parameter(parameters, behind) else {
        return Ok(Role::Plain);
    };
    if is_hash(token) {
        return Ok(Role::Hash {
            parameter: small(parameter)?,
        });
    }
    Ok(Role::Plain)
}

// A token that names a parameter, where there are so many places of it before this one; behind `#` it is part of that.
#[tactic(auto, unfolding(crate::specs::Bodies::parameter_part))]
fn parameter_role(
    before: &[PpToken],
    behind: &[PpToken],
    parameter: u32,
    occurrence: u32,
    last: bool,
) -> Option<Role>
    ensures role { (names : Sequence (Sequence ℕ)) (token : Token) → occurrence ≡ bodies.places_of names parameter before.now → parts_with token result ≡ bodies.parameter_part names before.now token behind.now parameter }
    ensures last { (names : Sequence (Sequence ℕ)) → (last ≡ true → bodies.places_of names parameter behind.now ≡ 0) → AreLast names behind.now result }
{
    if ends_with_hash(before) {
        return None;
    }
    if ends_with_paste(before) || begins_with_paste(behind) {
        return Some(Role::Beside {
            parameter,
            occurrence,
        });
    }
    Some(Role::Whole {
        parameter,
        occurrence,
        last,
    })
}

// What a token of a replacement list is, with what stands before it and behind it, and how often each parameter is named
// before it and in all.
#[tactic(auto, unfolding(crate::specs::Bodies::part_of, crate::specs::Bodies::other_part))]
fn role_of(
    parameters: &Parameters,
    before: &[PpToken],
    token: &PpToken,
    behind: &[PpToken],
    seen: &[u32],
    all: &[u32],
) -> Result<Option<Role>, Memory>
    requires seen { AreCounts parameters.now before.now seen.now }
    requires all { AreCounts parameters.now (before.now ++ token.now ∷ behind.now) all.now }
    ensures { IfOk result (λ role. IsRole parameters.now before.now token.now behind.now role) }
{
    if is_hash_hash(token) {
        return Ok(Some(Role::Paste));
    }
    match parameters.parameter_of(token) {
        None => Ok(Some(token_role(parameters, token, behind)?)),
        Some(parameter) => {
            let places = count_of(seen, parameter);
            let last = count_of(all, parameter).saturating_sub(places) == 1;
            Ok(parameter_role(before, behind, small(parameter)?, places, last))
        }
    }
}

// The token at an index of a replacement list.
fn token_at(body: &[PpToken], index: usize) -> &PpToken
    requires { index < length body.now }
    ensures { result.now ≡ slice_index_or body.now index result.now }
{
    &body[index]
}

// The tokens before an index.
fn tokens_before(body: &[PpToken], index: usize) -> &[PpToken]
    requires { index ≤ length body.now }
    ensures { result.now ≡ take index body.now }
{
    body.split_at(index).0
}

// The tokens from an index on.
fn tokens_from(body: &[PpToken], index: usize) -> &[PpToken]
    requires { index ≤ length body.now }
    ensures { result.now ≡ drop index body.now }
{
    body.split_at(index).1
}

// What the token at an index of a replacement list is, where each parameter is named so often before it and in all.
fn role_at(
    parameters: &Parameters,
    body: &[PpToken],
    index: usize,
    seen: &[u32],
    all: &[u32],
) -> Result<Option<Role>, Memory>
    requires inside { index < length body.now }
    requires seen { AreCounts parameters.now (take index body.now) seen.now }
    requires all { AreCounts parameters.now body.now all.now }
    ensures { IfOk result (IsRoleAt parameters.now body.now index) }
{
    let before = tokens_before(body, index);
    let behind = tokens_from(body, index + 1);
    let role = role_of(parameters, before, token_at(body, index), behind, seen, all)?;
    Ok(role)
}

// What the tokens of a replacement list are, where each parameter is named so often in all.
fn token_roles(
    alloc: Global,
    parameters: &Parameters,
    body: &[PpToken],
    all: &[u32],
) -> Result<Vec<Option<Role>>, Memory>
    requires { AreCounts parameters.now body.now all.now }
    ensures roles { IfOk result (λ roles. AreRolesOf parameters.now body.now roles.items) }
    ensures count { IfOk result (λ roles. length roles.items ≡ length body.now) }
{
    let mut seen = Vec::new(alloc);
    let mut roles = Vec::with_capacity(alloc, body.len())?;
    'tokens: for index in 0..body.len() {
        let role = role_at(parameters, body, index, seen.as_slice(), all)?;
        roles.push(role)?;
        count(parameters, token_at(body, index), &mut seen)?;
    }
    Ok(roles)
}

fn has_paste(body: &[PpToken]) -> bool
    ensures { result ≡ list_any sign.is_hash_hash body.now }
{
    body.iter().any(|token| is_hash_hash(token))
}

/// What is kept of a macro's replacement list.
pub(crate) fn roles_of(alloc: Global, definition: &Definition) -> Result<Roles, Memory>
    ensures { IfOk result (AreRoles definition.now) }
{
    let parameters = Parameters::new(alloc, definition)?;
    let body = definition.body.items();
    let all = counts_of(alloc, &parameters, body)?;
    let tokens = token_roles(alloc, &parameters, body, all.as_slice())?;
    Ok(Roles {
        tokens,
        pastes: has_paste(body),
    })
}
