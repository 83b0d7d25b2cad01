//! Where pointers lead when they move, and how two of them compare (6.5.6, 6.5.8, 6.5.9).

ghost use Rattle.std.specs.Prelude.{◌≡◌, ◌&&◌, ◌∷◌, [], ◌++◌, not, pos, is_none, IfOk, map, option_map, take};
ghost use Rattle.dm_int.specs.Operators.{int_eq};
ghost use Rattle.dm_type.specs.Tables.{IsId, Table, type_of};
ghost use Rattle.dm_meaning.specs.declared.cause.Cause.TheVariants.{Bounds, Null};
ghost use Rattle.dm_meaning.specs.Causes as table;
ghost use Rattle.dm_meaning.specs.Memory.{look};
ghost use Rattle.dm_meaning.specs.Operations.{byte_in_block};
ghost use Rattle.dm_memory.specs.Blocks.{view_of_blocks, AreKnown};
ghost use Rattle.dm_layout.specs.LaidOut.{laid_out};
ghost use Rattle.dm_layout.specs.Moves.{IsCount, steps_of};
ghost use Rattle.dm_memory.specs.Named.{IsKindOf};
ghost use Rattle.dm_value.specs.Parts.{view_of_part};
ghost use Rattle.dm_value.specs.Places.{view_of_at, view_of_name};
ghost use Rattle.dm_value.specs.Views.{view_of_pointer};

use crate::blocks::Blocks;
use crate::uses::to_use;
use dm_layout::{Layout, ObjectType, Tail, byte_of, distance, moved};
use dm_meaning::Cause;
use dm_token::Memory;
use dm_type::TypeId;
use dm_value::{At, Name, Part, Path, Pointer, sooner, when};
use std::alloc::Global;
use std::rc::Rc;

/// The type of an object that is there.
pub fn kind_of(layout: &Layout, blocks: &Blocks, name: &Name) -> Option<ObjectType>
    requires { AreKnown layout.now blocks.now }
    ensures { IsKindOf layout.now result (look (view_of_blocks layout.now blocks.now) (view_of_name name.now)) }
{
    // Only the contract speaks of the types, which the layout holds.
    let _ = layout;
    match name {
        Name::Numbered(number) => {
            let block = blocks.numbered(*number)?;
            Some(ObjectType::Known(block.kind))
        }
        Name::Literal(bytes, _) => Some(ObjectType::Text(bytes.bytes().len() as u64 + 1)),
        Name::Elsewhere(_) => None,
    }
}

/// The byte of its object at which a place begins, 0 where the object isn't there.
pub fn byte_at(layout: &Layout, blocks: &Blocks, at: &At) -> Result<u64, Memory>
    requires { AreKnown layout.now blocks.now }
    ensures { IfOk result (λ byte. byte ≡ byte_in_block (laid_out layout.now) (view_of_at at.now).path (look (view_of_blocks layout.now blocks.now) (view_of_name at.now.name))) }
{
    let Some(kind) = kind_of(layout, blocks, &at.name) else {
        return Ok(0);
    };
    let byte = byte_of(layout, kind, at.path.steps())?;
    Ok(byte)
}

/// How many elements of the target's type lie between two places of one object, 0 where the object isn't there. None where they
/// aren't places in one array.
pub fn distance_at(layout: &Layout, blocks: &Blocks, target: TypeId, a: &At, b: &At) -> Option<i128>
    requires known { AreKnown layout.now blocks.now }
    requires target { IsId layout.now target }
    ensures { result ≡ table.distance_in (laid_out layout.now) (type_of layout.now target) (view_of_at a.now).path (view_of_at b.now).path
        (look (view_of_blocks layout.now blocks.now) (view_of_name a.now.name)) }
{
    let Some(kind) = kind_of(layout, blocks, &a.name) else {
        return Some(0);
    };
    distance(layout, kind, target, a.path.steps(), b.path.steps())
}

/// The pointer that is so many elements of the target's type further on. None where the array doesn't go so far.
pub fn moved_pointer(
    alloc: Global,
    layout: &Layout,
    blocks: &Blocks,
    target: TypeId,
    pointer: &Pointer,
    count: i128,
) -> Result<Option<Pointer>, Memory>
    requires known { AreKnown layout.now blocks.now }
    requires target { IsId layout.now target }
    requires count { IsCount count }
    ensures { IfOk result (λ moved. option_map view_of_pointer moved
        ≡ table.moved_pointer (laid_out layout.now) (view_of_blocks layout.now blocks.now) (type_of layout.now target) (view_of_pointer pointer.now) count) }
{
    let Pointer::To(at) = pointer else {
        return Ok(Some(Pointer::Null));
    };
    let at = at.as_ref();
    let Some(path) = moved_path(alloc, layout, blocks, target, at, count)? else {
        return Ok(None);
    };
    let name = at.name.copy()?;
    let place = Rc::new(alloc, At { name, path })?;
    Ok(Some(Pointer::To(place)))
}

/// The path to that element.
fn moved_path(
    alloc: Global,
    layout: &Layout,
    blocks: &Blocks,
    target: TypeId,
    at: &At,
    count: i128,
) -> Result<Option<Path>, Memory>
    requires known { AreKnown layout.now blocks.now }
    requires target { IsId layout.now target }
    requires count { IsCount count }
    ensures { IfOk result (λ path. path ≡ table.path_moved (laid_out layout.now)
        (look (view_of_blocks layout.now blocks.now) (view_of_name at.now.name)) (type_of layout.now target) (view_of_at at.now).path count) }
{
    let Some(kind) = kind_of(layout, blocks, &at.name) else {
        let path = at.path.copy()?;
        return Ok(Some(path));
    };
    if count == 0 {
        let path = at.path.copy()?;
        return Ok(Some(path));
    }
    let Some((stays, tail)) = moved(layout, kind, target, at.path.steps(), count) else {
        return Ok(None);
    };
    let path = with_tail(alloc, at.path.steps(), stays, tail)?;
    Ok(Some(path))
}

/// The path of which so many steps stay, before its new last step.
fn with_tail(alloc: Global, steps: &[Part], stays: usize, tail: Tail) -> Result<Path, Memory>
    ensures { IfOk result (λ path. path ≡ take stays (map view_of_part steps.now) ++ steps_of tail) }
{
    let kept = first(steps, stays);
    match tail {
        Tail::Element(number) => {
            let Ok(number) = u32::try_from(number) else {
                return Err(Memory);
            };
            let path = with_step(alloc, kept, Part::Inner(number))?;
            Ok(path)
        }
        Tail::Itself => {
            let all = Vec::from_slice(alloc, kept)?;
            let path = Path::of(alloc, all)?;
            Ok(path)
        }
        Tail::Past => {
            let path = with_step(alloc, kept, Part::Past)?;
            Ok(path)
        }
    }
}

/// The path of these steps and one more.
fn with_step(alloc: Global, kept: &[Part], step: Part) -> Result<Path, Memory>
    ensures { IfOk result (λ path. path ≡ map view_of_part kept.now ++ view_of_part step ∷ []) }
{
    let mut all = Vec::from_slice(alloc, kept)?;
    all.push(step)?;
    let path = Path::of(alloc, all)?;
    Ok(path)
}

/// The first steps, as many as there are.
fn first(steps: &[Part], count: usize) -> &[Part]
    ensures { map view_of_part result.now ≡ take count (map view_of_part steps.now) }
{
    if count <= steps.len() {
        &steps[..count]
    } else {
        steps
    }
}

/// Whether a null pointer is to move.
fn moves_from_null(pointer: &Pointer, count: i128) -> bool
    ensures { result ≡ (table.is_null (view_of_pointer pointer.now) && not (int_eq count (pos 0))) }
{
    pointer.is_null() && count != 0
}

fn is_missing(moved: &Option<Pointer>) -> bool
    ensures { result ≡ is_none moved.now }
{
    match moved {
        Some(_) => false,
        None => true,
    }
}

/// Why moving a pointer by so many elements is undefined, if it is, where this is what it gives (6.5.6p8).
pub fn to_move(
    blocks: &Blocks,
    pointer: &Pointer,
    count: i128,
    moved: &Option<Pointer>,
) -> Option<Cause>
    ensures { (types : Table) → result ≡ table.earliest (table.when Null (table.is_null (view_of_pointer pointer.now) && not (int_eq count (pos 0)))
        ++ table.when Bounds (is_none moved.now) ++ table.use_causes (view_of_blocks types blocks.now) (view_of_pointer pointer.now)) }
{
    let null = when(Cause::Null, moves_from_null(pointer, count));
    let bounds = when(Cause::Bounds, is_missing(moved));
    let used = to_use(blocks, pointer);
    let two = sooner(null, bounds);
    sooner(two, used)
}
