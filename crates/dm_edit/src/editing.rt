ghost use Rattle.std.specs.Prelude.{◌≡◌, ◌↔◌, IfOk, IsSome, IsTrue, Some};
ghost use Rattle.std.specs.List.{prefix_len};
ghost use Rattle.dm_edit.specs.Cuts.{is_blank, body_end, LiesIn};
ghost use Rattle.dm_edit.specs.Edits.{IsEdited};
ghost use Rattle.dm_edit.specs.Parts.{ArePartsOf};

use crate::change::Change;
use dm_token::{Definition, List, Memory};
use std::alloc::Global;

/// The bytes of a definition's file with the declaration in place of the definition.
///
/// The bytes from the `#` through the name, or through the `)` of the parameter list, and the spaces and tabs behind
/// that become the head. The tail is put in directly behind the body's last token. All other bytes stay.
pub fn edit(alloc: Global, bytes: &[u8], change: &Change) -> Result<List<u8>, Memory>
    requires { LiesIn bytes.now change.now.definition }
    ensures { IfOk result (IsEdited bytes.now change.now) }
{
    let Parts { front, body, rest } = parts_of(bytes, &change.definition);
    let mut edited = Vec::new(alloc);
    edited.extend_from_slice(front)?;
    edited.extend_from_slice(change.head.bytes())?;
    edited.extend_from_slice(body)?;
    edited.extend_from_slice(change.tail.bytes())?;
    edited.extend_from_slice(rest)?;
    Ok(List::from_vec(edited))
}

/// Whether a definition lies in these bytes, and has a body.
pub fn lies_in(bytes: &[u8], definition: &Definition) -> bool
    ensures { IsTrue result ↔ LiesIn bytes.now definition.now }
{
    let Some(last_end) = last_end(definition) else {
        return false;
    };
    let hash = definition.hash as usize;
    let head_end = definition.head_end as usize;
    let end = last_end as usize;
    if hash > head_end || head_end > end || end > bytes.len() {
        return false;
    }
    let (through_body, _) = bytes.split_at(end);
    let (_, behind_head) = through_body.split_at(head_end);
    blank_count(behind_head) < behind_head.len()
}

/// The offset behind the body's last token, if there is one.
fn last_end(definition: &Definition) -> Option<u32>
    ensures { result ≡ body_end definition.now }
{
    match definition.body.items().last() {
        Some(last) => Some(last.end),
        None => None,
    }
}

/// The bytes that stay: those before the `#`, those of the body, and those behind it.
pub struct Parts<'a> {
    front: &'a [u8],
    body: &'a [u8],
    rest: &'a [u8],
}

fn parts_of<'a>(bytes: &'a [u8], definition: &Definition) -> Parts<'a>
    requires { LiesIn bytes.now definition.now }
    ensures { ArePartsOf bytes.now definition.now result.front.now result.body.now result.rest.now }
{
    let (front, _) = bytes.split_at(definition.hash as usize);
    let (through_body, rest) = bytes.split_at(end_of_body(definition));
    let (_, behind_head) = through_body.split_at(definition.head_end as usize);
    let (_, body) = behind_head.split_at(blank_count(behind_head));
    Parts { front, body, rest }
}

/// The offset behind the body's last token.
fn end_of_body(definition: &Definition) -> usize
    requires { IsSome (body_end definition.now) }
    ensures { body_end definition.now ≡ Some result }
{
    definition.body.items().last().unwrap().end as usize
}

/// How many spaces and tabs the bytes begin with.
fn blank_count(bytes: &[u8]) -> usize
    ensures { result ≡ prefix_len is_blank bytes.now }
{
    bytes.iter().take_while(|byte| is_blank(**byte)).count()
}

/// Whether a byte is a space or a tab.
pub(crate) fn is_blank(byte: u8) -> bool
    ensures { result ≡ is_blank byte }
{
    byte == b' ' || byte == b'\t'
}
