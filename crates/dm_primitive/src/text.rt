//! Strings in memory (7.1.1p1).

ghost use Rattle.std.specs.Prelude.{◌≡◌, [], pos, IfOk};
ghost use Rattle.dm_int.specs.declared.Kind.{Kind as AnyKind};
ghost use Rattle.dm_int.specs.declared.Kind.TheVariants.{Char};
ghost use Rattle.dm_type.specs.CTypes.{integer};
ghost use Rattle.dm_type.specs.Tables.{Has};
ghost use Rattle.dm_layout.specs.LaidOut.{laid_out};
ghost use Rattle.dm_memory.specs.Blocks.{view_of_blocks, AreKnown};
ghost use Rattle.dm_meaning.specs.Causes as table;
ghost use Rattle.dm_meaning.specs.Causes.{earliest, read_causes};
ghost use Rattle.dm_meaning.specs.Memory as memory;
ghost use Rattle.dm_meaning.specs.Primitives as primitives;
ghost use Rattle.dm_meaning.specs.Values as values;
ghost use Rattle.dm_primitive.specs.Texts.{Text, and_character, text_at_next};
ghost use Rattle.dm_value.specs.Places.{view_of_at, view_of_name};
ghost use Rattle.dm_value.specs.Views.{view_of_value};

use crate::byte::byte_in;
use dm_layout::{Layout, size};
use dm_meaning::Cause;
use dm_memory::{Blocks, kind_of, moved_pointer, to_read};
use dm_token::{List, Memory};
use dm_type::TypeId;
use dm_value::{At, Name, Pointer, Value};
use std::alloc::Global;
use std::rc::Rc;

/// A character of a string, or its end.
#[derive(Drop)]
enum Character {
    Byte(u8),
    End,
    Refused(Cause),
}

/// The string that begins at a place, without its closing 0.
pub(crate) fn text(
    alloc: Global,
    layout: &Layout,
    blocks: &Blocks,
    character: TypeId,
    at: &Rc<At>,
) -> Result<Result<List<u8>, Cause>, Memory>
    requires character { Has layout.now character (integer Char) }
    requires known { AreKnown layout.now blocks.now }
    ensures { let objects = view_of_blocks layout.now blocks.now in IfOk result (λ text. text
        ≡ primitives.text_at (laid_out layout.now) objects (primitives.most_in (laid_out layout.now) (memory.look objects (view_of_name at.now.value.name))) (view_of_at at.now.value)) }
{
    let mut left = bytes_of(layout, blocks, &at.as_ref().name);
    let mut bytes = List::new(alloc);
    let mut place = at.clone()?;
    while left > 0 {
        left -= 1;
        match read(alloc, layout, blocks, character, place.as_ref())? {
            Character::Byte(byte) => bytes.push(byte)?,
            Character::End => return Ok(Ok(bytes)),
            Character::Refused(cause) => return Ok(Err(cause)),
        }
        let Some(next) = behind(alloc, layout, blocks, character, place)? else {
            return Ok(Err(Cause::Bounds));
        };
        place = next;
    }
    Ok(Err(Cause::Bounds))
}

/// The bytes of an object. Where it isn't there, 1: that shows at its first character.
fn bytes_of(layout: &Layout, blocks: &Blocks, name: &Name) -> u64
    requires { AreKnown layout.now blocks.now }
    ensures { result ≡ primitives.most_in (laid_out layout.now) (memory.look (view_of_blocks layout.now blocks.now) (view_of_name name.now)) }
{
    match kind_of(layout, blocks, name) {
        Some(kind) => size(layout, &kind),
        None => 1,
    }
}

/// Reads the character at a place.
fn read(
    alloc: Global,
    layout: &Layout,
    blocks: &Blocks,
    character: TypeId,
    at: &At,
) -> Result<Character, Memory>
    requires character { Has layout.now character (integer Char) }
    requires known { AreKnown layout.now blocks.now }
    ensures { let objects = view_of_blocks layout.now blocks.now in IfOk result (λ one. (later : Text) →
        primitives.unless_cause (earliest (read_causes (laid_out layout.now) objects [] (integer Char) (view_of_at at.now))) (memory.contents_at objects (view_of_at at.now)) later ≡ and_character one later) }
{
    if let Some(cause) = to_read(layout, blocks, &[], character, at) {
        return Ok(Character::Refused(cause));
    }
    let value = blocks.contents(alloc, at)?;
    Ok(character_in(&value))
}

/// The character that a value is.
fn character_in(value: &Value) -> Character
    ensures { (later : Text) → primitives.and_text (view_of_value value.now) later ≡ and_character result later }
{
    match value {
        Value::Integer(integer) => character_of(integer.value()),
        _ => Character::Refused(Cause::OtherType),
    }
}

/// The character of a number.
fn character_of(number: i128) -> Character
    ensures { (kind : AnyKind) (later : Text) → primitives.and_text (values.integer_value kind number) later ≡ and_character result later }
{
    if number == 0 {
        Character::End
    } else {
        Character::Byte(byte_in(number))
    }
}

/// The place of the next character, if the array goes so far.
fn behind(
    alloc: Global,
    layout: &Layout,
    blocks: &Blocks,
    character: TypeId,
    at: Rc<At>,
) -> Result<Option<Rc<At>>, Memory>
    requires character { Has layout.now character (integer Char) }
    requires known { AreKnown layout.now blocks.now }
    ensures { IfOk result (λ next. (later : values.At → Text) →
        primitives.text_on (table.moved_pointer (laid_out layout.now) (view_of_blocks layout.now blocks.now) (integer Char) (values.to (view_of_at at.value)) (pos 1)) later ≡ text_at_next next later) }
{
    match moved_pointer(alloc, layout, blocks, character, &Pointer::To(at), 1)? {
        Some(Pointer::To(next)) => Ok(Some(next)),
        _ => Ok(None),
    }
}
