//! The objects of string literals (6.4.5p6), which aren't kept: their bytes say all.

ghost use Rattle.std.specs.Prelude.{◌≡◌, false, ◌∷◌, [], ◌++◌, IfOk, None, Some, map, option_map, slice_get};
ghost use Rattle.dm_int.specs.declared.Kind.TheVariants.{Char};
ghost use Rattle.dm_type.specs.CTypes as ctypes;
ghost use Rattle.dm_type.specs.Tables.{Table};
ghost use Rattle.dm_meaning.specs.Causes.{is_unset};
ghost use Rattle.dm_meaning.specs.Memory as memory;
ghost use Rattle.dm_meaning.specs.Objects as objects;
ghost use Rattle.dm_layout.specs.LaidOut.{laid_out, view_of_reached, IsKnown};
ghost use Rattle.dm_value.specs.Parts.{view_of_part};
ghost use Rattle.dm_value.specs.Views.{view_of_value};

use dm_int::{Kind, convert};
use dm_layout::{Layout, Reached};
use dm_token::{List, Memory};
use dm_value::{Integer, Part, Value, nth};
use std::alloc::Global;
use std::rc::Rc;

/// A byte as a char.
fn character(byte: u8) -> Value
    ensures { view_of_value result ≡ memory.character byte }
{
    Value::Integer(Integer::new(Kind::Char, convert(Kind::Char, i128::from(byte))))
}

/// The characters of a literal, and the closing 0.
fn characters(alloc: Global, bytes: &[u8]) -> Result<Vec<Value>, Memory>
    ensures { IfOk result (λ all. map view_of_value all.items ≡ map memory.character bytes.now ++ memory.character 0 ∷ []) }
{
    let mut all = Vec::new(alloc);
    for byte in bytes {
        all.push(character(*byte))?;
    }
    all.push(character(0))?;
    Ok(all)
}

/// The character of this number, of which the last is the closing 0.
fn element(bytes: &[u8], number: usize) -> Option<Value>
    ensures { option_map view_of_value result ≡ slice_get (map memory.character bytes.now ++ memory.character 0 ∷ []) number }
{
    match nth(bytes, number) {
        Some(byte) => Some(character(*byte)),
        None => {
            if number == bytes.len() {
                Some(character(0))
            } else {
                None
            }
        }
    }
}

/// Whether the part to which a path leads, if it leads to one, is no value that was set.
pub(crate) fn is_unset_part(bytes: &[u8], steps: &[Part]) -> bool
    ensures { result ≡ is_unset (memory.or_unset (memory.value_in (map view_of_part steps.now) (Some (memory.literal_block bytes.now)))) }
{
    match steps.split_first() {
        None => false,
        Some((Part::Inner(number), rest)) => !rest.is_empty() || bytes.len() < *number as usize,
        Some((Part::Past, _)) => true,
    }
}

/// The value of a part, unset where there is none.
pub(crate) fn part(alloc: Global, bytes: &[u8], steps: &[Part]) -> Result<Value, Memory>
    ensures { IfOk result (λ value. view_of_value value
        ≡ memory.or_unset (memory.value_in (map view_of_part steps.now) (Some (memory.literal_block bytes.now)))) }
{
    let Some((first, rest)) = steps.split_first() else {
        return whole(alloc, bytes);
    };
    match first {
        Part::Inner(number) => {
            if rest.is_empty() {
                Ok(or_unset(element(bytes, *number as usize)))
            } else {
                Ok(Value::Unset)
            }
        }
        Part::Past => Ok(Value::Unset),
    }
}

/// The array of the characters.
fn whole(alloc: Global, bytes: &[u8]) -> Result<Value, Memory>
    ensures { IfOk result (λ value. view_of_value value ≡ (memory.literal_block bytes.now).contents) }
{
    let all = List::from_vec(characters(alloc, bytes)?);
    Ok(Value::Parts(Rc::new(alloc, all)?))
}

fn or_unset(value: Option<Value>) -> Value
    ensures { view_of_value result ≡ memory.or_unset (option_map view_of_value value) }
{
    match value {
        Some(value) => value,
        None => Value::Unset,
    }
}

/// What a path leads to.
pub(crate) fn reached(layout: &Layout, bytes: &[u8], steps: &[Part]) -> Reached
    ensures view { view_of_reached layout.now result
        ≡ memory.reached_in (laid_out layout.now) (map view_of_part steps.now) (Some (memory.literal_block bytes.now)) }
    ensures known { IsKnown layout.now result }
{
    let length = bytes.len() as u64;
    match steps.split_first() {
        None => Reached::Text(length + 1),
        Some((Part::Inner(number), rest)) => {
            if u64::from(*number) <= length {
                reached_in_character(rest)
            } else {
                Reached::Outside
            }
        }
        Some((Part::Past, _)) => Reached::Outside,
    }
}

/// What a path leads to from a character.
fn reached_in_character(steps: &[Part]) -> Reached
    ensures view { (table : Table) → view_of_reached table result ≡ objects.part_at (laid_out table) false (ctypes.integer Char) (map view_of_part steps.now) }
    ensures known { (table : Table) → IsKnown table result }
{
    match steps.split_first() {
        None => Reached::Character,
        Some((Part::Inner(_), _)) => Reached::Foreign,
        Some((Part::Past, _)) => Reached::Outside,
    }
}
