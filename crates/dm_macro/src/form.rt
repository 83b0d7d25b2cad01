//! The form of a `define` directive (6.10.3).

ghost use Rattle.std.specs.Prelude.{◌≡◌, ◌<◌, length, IsTrue, IfOk, IfErr, MatchOption, None, Some, position, take, drop};
ghost use Rattle.dm_macro.specs.Signs.{is_right_parenthesis as closes};
ghost use Rattle.dm_macro.specs.Forms as form;
ghost use Rattle.dm_macro.specs.Parts.{Splits, ArePartsOf};
ghost use Rattle.dm_macro.specs.Tables.{RefusesForm};

use crate::name_set::are_distinct;
use crate::parameters::{is_parameter_list, names_in_list};
use crate::sign::{
    VARIABLE_ARGUMENTS, is_ellipsis, is_hash_hash, is_left_parenthesis, is_macro_name,
    is_right_parenthesis, is_variable_arguments,
};
use dm_token::{Definition, List, Memory, Origin, Place, PpToken, Refusal, Stop, Text, refusals};
use std::alloc::Global;

/// What stands behind a macro's name.
#[derive(Drop)]
pub(crate) struct Parts<'a> {
    parameters: Option<List<Text>>,
    variadic: bool,
    body: &'a [PpToken],
    head_end: u32,
}

/// A refusal of this number.
pub(crate) fn refused(number: u8, place: Place) -> Stop
    ensures { result ≡ form.refused number place }
{
    Stop::Refused(Refusal {
        number,
        detail: 0,
        place,
    })
}

/// The definition that a directive's line gives, from its `#`. A line that 6.10.3 doesn't allow is refused as 5 at the
/// `#`.
pub(crate) fn read_definition(
    alloc: Global,
    line: &[PpToken],
    origin: Origin,
    head_plain: bool,
) -> Result<Definition, Stop>
    requires { 0 < length line.now }
    ensures given { IfOk result (λ definition. form.Gives line.now origin head_plain definition) }
    ensures refused { IfErr result (λ stop. RefusesForm line.now origin head_plain stop) }
{
    match line {
        [hash, _, name, ..] => {
            match definition(alloc, hash, name, &line[3..], origin, head_plain)? {
                Some(definition) => Ok(definition),
                None => Err(refused(refusals::FORM, hash.place)),
            }
        }
        _ => Err(refused(refusals::FORM, line[0].place)),
    }
}

/// The definition that the parts of a line make, or `None` where they aren't allowed.
fn definition(
    alloc: Global,
    hash: &PpToken,
    name: &PpToken,
    behind: &[PpToken],
    origin: Origin,
    head_plain: bool,
) -> Result<Option<Definition>, Memory>
    ensures { IfOk result (λ found. MatchOption found
        (¬ form.IsAllowed name.now behind.now)
        (λ definition. form.IsAllowed name.now behind.now × (definition ≡ form.definition_of hash.now name.now behind.now origin head_plain))) }
{
    if !is_macro_name(name) {
        return Ok(None);
    }
    match parts_behind(alloc, name, behind)? {
        Some(parts) if is_body(parts.variadic, parts.body) => {
            let spelling = name.spelling.copy()?;
            let body = copies(alloc, parts.body)?;
            Ok(Some(Definition {
                name: spelling,
                parameters: parts.parameters,
                variadic: parts.variadic,
                body,
                origin,
                place: name.place,
                hash: hash.place.byte,
                head_end: parts.head_end,
                head_plain,
            }))
        }
        _ => Ok(None),
    }
}

/// Copies of the tokens.
fn copies(alloc: Global, tokens: &[PpToken]) -> Result<List<PpToken>, Memory>
    ensures { IfOk result (λ copies. copies ≡ tokens.now) }
{
    let mut copies = List::new(alloc);
    for token in tokens {
        copies.push(token.copy()?)?;
    }
    Ok(copies)
}

/// The parts behind a macro's name, or `None` where neither a parameter list nor white space begins them.
fn parts_behind<'a>(
    alloc: Global,
    name: &PpToken,
    behind: &'a [PpToken],
) -> Result<Option<Parts<'a>>, Memory>
    ensures { IfOk result (λ found. MatchOption found
        (¬ form.HasHead behind.now)
        (λ parts. form.HasHead behind.now × ArePartsOf name.now behind.now parts)) }
{
    if is_function_like(behind) {
        return parts_with_list(alloc, name, behind);
    }
    if !is_set_off(behind) {
        return Ok(None);
    }
    Ok(Some(Parts {
        parameters: None,
        variadic: false,
        body: behind,
        head_end: name.end,
    }))
}

/// The same for a function-like macro.
fn parts_with_list<'a>(
    alloc: Global,
    name: &PpToken,
    behind: &'a [PpToken],
) -> Result<Option<Parts<'a>>, Memory>
    requires { IsTrue (form.is_function_like behind.now) }
    ensures { IfOk result (λ found. MatchOption found
        (¬ form.HasParameterList behind.now)
        (λ parts. form.HasParameterList behind.now × ArePartsOf name.now behind.now parts)) }
{
    let Some((listed, closing, body)) = split_list(behind) else {
        return Ok(None);
    };
    if !is_parameter_list(listed) {
        return Ok(None);
    }
    let names = names_in_list(alloc, listed)?;
    if has_variable_arguments(&names) || !are_distinct(alloc, &names)? {
        return Ok(None);
    }
    Ok(Some(Parts {
        parameters: Some(List::from_vec(names)),
        variadic: has_ellipsis(listed),
        body,
        head_end: closing.end,
    }))
}

/// The tokens between the `(` and the first `)`, that `)`, and the tokens behind it.
fn split_list(behind: &[PpToken]) -> Option<(&[PpToken], &PpToken, &[PpToken])>
    requires { IsTrue (form.is_function_like behind.now) }
    ensures { Splits behind.now result }
{
    let close = first_closing(behind)?;
    Some((&behind[1..close], &behind[close], &behind[close + 1..]))
}

/// The position of the first `)`, which isn't the first token.
fn first_closing(behind: &[PpToken]) -> Option<usize>
    ensures { result ≡ position closes behind.now }
{
    behind.iter().position(|token| is_right_parenthesis(token))
}

fn has_ellipsis(tokens: &[PpToken]) -> bool
    ensures { result ≡ form.has_ellipsis tokens.now }
{
    tokens.iter().any(|token| is_ellipsis(token))
}

fn has_variable_arguments(names: &[Text]) -> bool
    ensures { result ≡ form.has_variable_arguments names.now }
{
    names
        .iter()
        .any(|name| name.bytes() == VARIABLE_ARGUMENTS.as_slice())
}

/// Whether the macro is function-like: a `(` without white space before it comes next.
fn is_function_like(behind: &[PpToken]) -> bool
    ensures { result ≡ form.is_function_like behind.now }
{
    match behind {
        [] => false,
        [token, ..] => is_left_parenthesis(token) && !token.blank_before,
    }
}

/// Whether white space stands before the body, if there is one.
fn is_set_off(body: &[PpToken]) -> bool
    ensures { result ≡ form.is_set_off body.now }
{
    match body {
        [] => true,
        [token, ..] => token.blank_before,
    }
}

/// Whether a replacement list has no `##` at an end, and `__VA_ARGS__` only in a variadic macro.
fn is_body(variadic: bool, body: &[PpToken]) -> bool
    ensures { result ≡ form.is_body variadic body.now }
{
    !has_paste_at_an_end(body) && (variadic || !uses_variable_arguments(body))
}

fn uses_variable_arguments(body: &[PpToken]) -> bool
    ensures { result ≡ form.uses_variable_arguments body.now }
{
    body.iter().any(|token| is_variable_arguments(token))
}

fn has_paste_at_an_end(body: &[PpToken]) -> bool
    ensures { result ≡ form.has_paste_at_an_end body.now }
{
    match body {
        [] => false,
        [only] => is_hash_hash(only),
        [first, .., last] => is_hash_hash(first) || is_hash_hash(last),
    }
}
