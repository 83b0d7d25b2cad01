//! The texts in which a replacement list becomes the value of a declaration.

ghost use Rattle.std.specs.Prelude.{◌≡◌, ◌++◌, All, IfOk, map};
ghost use Rattle.dm_type.specs.Tables.{IsId, type_of};
ghost use Rattle.dm_judge.specs.Changes as changes;

use crate::signature::{Parameter, Signature};
use dm_edit::As;
use dm_token::{Definition, List, Memory, Text};
use dm_type::{Shape, TypeId, Types};
use std::alloc::Global;

/// The declarations of parameters. None where a type can't be spelled.
fn declarations(
    alloc: Global,
    types: &Types,
    visible: &[u32],
    parameters: &[Parameter],
) -> Result<Option<List<Text>>, Memory>
    requires { All (λ one. IsId types.now one.kind) parameters.now }
    ensures { IfOk result (λ texts. texts ≡ changes.declarations types.now visible.now (map (changes.parameter_over types.now) parameters.now)) }
{
    let mut texts = List::new(alloc);
    for parameter in parameters {
        let Some(text) = types.spell(parameter.kind, &parameter.name, visible)? else {
            return Ok(None);
        };
        texts.push(text)?;
    }
    Ok(Some(texts))
}

/// Some bytes with the texts behind them, each behind a comma.
fn with_further(bytes: Vec<u8>, texts: &[Text]) -> Result<Vec<u8>, Memory>
    ensures { IfOk result (λ longer. longer.items ≡ bytes.items ++ changes.further texts.now) }
{
    let mut longer = bytes;
    for text in texts {
        longer.extend_from_slice(b", ")?;
        longer.extend_from_slice(text.bytes())?;
    }
    Ok(longer)
}

/// The texts between commas, or `void` for none.
fn listed(alloc: Global, texts: &[Text]) -> Result<Vec<u8>, Memory>
    ensures { IfOk result (λ list. list.items ≡ changes.listed texts.now) }
{
    match texts.split_first() {
        None => Ok(Vec::from_slice(alloc, b"void")?),
        Some((first, others)) => with_further(Vec::from_slice(alloc, first.bytes())?, others),
    }
}

/// The declarator of a function with these parameters.
fn declarator(alloc: Global, name: &Text, parameters: &[Text]) -> Result<Text, Memory>
    ensures { IfOk result (λ text. text ≡ changes.declarator name.now parameters.now) }
{
    let list = listed(alloc, parameters)?;
    let mut bytes = Vec::from_slice(alloc, name.bytes())?;
    bytes.extend_from_slice(b"(")?;
    bytes.extend_from_slice(list.as_slice())?;
    bytes.extend_from_slice(b")")?;
    Text::from_vec(alloc, bytes)
}

/// A text with others before and behind it.
fn between(alloc: Global, before: &str, text: &Text, behind: &str) -> Result<Text, Memory>
    ensures { IfOk result (λ whole. whole ≡ before.now ++ (text.now ++ behind.now)) }
{
    let mut bytes = Vec::from_slice(alloc, before.as_bytes())?;
    bytes.extend_from_slice(text.bytes())?;
    bytes.extend_from_slice(behind.as_bytes())?;
    Text::from_vec(alloc, bytes)
}

/// What opens the body of a function with this result.
fn opening(types: &Types, kind: TypeId) -> &'static str
    requires { IsId types.now kind }
    ensures { result.now ≡ changes.opening (type_of types.now kind) }
{
    match types.shape(kind) {
        Shape::Void => " { ",
        _ => " { return ",
    }
}

fn function_head(
    alloc: Global,
    definition: &Definition,
    types: &Types,
    visible: &[u32],
    signature: &Signature,
) -> Result<Option<Text>, Memory>
    requires result { IsId types.now signature.now.result }
    requires parameters { All (λ one. IsId types.now one.kind) signature.now.parameters }
    ensures { IfOk result (λ head. head ≡ changes.function_head types.now visible.now definition.now (changes.signature_over types.now signature.now)) }
{
    let parameters = signature.parameters.items();
    let Some(texts) = declarations(alloc, types, visible, parameters)? else {
        return Ok(None);
    };
    let declarator = declarator(alloc, &definition.name, texts.items())?;
    let Some(text) = types.spell(signature.result, &declarator, visible)? else {
        return Ok(None);
    };
    let opening = opening(types, signature.result);
    Ok(Some(between(alloc, "static inline ", &text, opening)?))
}

fn constant_head(
    alloc: Global,
    definition: &Definition,
    types: &Types,
    visible: &[u32],
    kind: TypeId,
) -> Result<Option<Text>, Memory>
    requires { IsId types.now kind }
    ensures { IfOk result (λ head. head ≡ changes.constant_head types.now visible.now definition.now (type_of types.now kind)) }
{
    match types.spell(kind, &definition.name, visible)? {
        Some(text) => Ok(Some(between(alloc, "static const ", &text, " = ")?)),
        None => Ok(None),
    }
}

/// What stands before the replacement list. None where a type can't be spelled.
pub(crate) fn head_of(
    alloc: Global,
    kind: As,
    definition: &Definition,
    types: &Types,
    visible: &[u32],
    signature: &Signature,
) -> Result<Option<Text>, Memory>
    requires result { IsId types.now signature.now.result }
    requires parameters { All (λ one. IsId types.now one.kind) signature.now.parameters }
    ensures { IfOk result (λ head. head ≡ changes.head_of kind types.now visible.now definition.now (changes.signature_over types.now signature.now)) }
{
    match kind {
        As::Function => function_head(alloc, definition, types, visible, signature),
        As::Enumerator => Ok(Some(between(alloc, "enum { ", &definition.name, " = ")?)),
        As::Constant => constant_head(alloc, definition, types, visible, signature.result),
    }
}

/// What stands behind the replacement list.
pub(crate) fn tail_of(kind: As) -> &'static str
    ensures { result.now ≡ changes.tail_of kind }
{
    match kind {
        As::Function => "; }",
        As::Enumerator => " };",
        As::Constant => ";",
    }
}
