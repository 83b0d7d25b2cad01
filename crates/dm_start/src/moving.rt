//! Addresses of parts of objects, and addresses that move (6.5.6p8, 6.6p9).

ghost use Rattle.std.specs.Prelude.{◌≡◌, ◌∷◌, [], neg_ℤ, None, IfOk};
ghost use Rattle.dm_type.specs.CTypes as ctypes;
ghost use Rattle.dm_type.specs.Tables.{IsId, type_of};
ghost use Rattle.dm_tree.specs.Views.{view};
ghost use Rattle.dm_layout.specs.Moves.{IsCount};
ghost use Rattle.dm_meaning.specs.Operations as operations;
ghost use Rattle.dm_meaning.specs.Programs as programs;
ghost use Rattle.dm_meaning.specs.Units as units;
ghost use Rattle.dm_meaning.specs.Values as values;
ghost use Rattle.dm_value.specs.Places.{view_of_at, view_of_name};
ghost use Rattle.dm_value.specs.Views.{view_of_pointer};
ghost use Rattle.dm_start.specs.Scenes.{memory_in, program_in, types_in, SceneFits, TreeFits};

use crate::scene::Scene;
use dm_int::Op;
use dm_memory::moved_pointer;
use dm_token::Memory;
use dm_tree::Core;
use dm_type::{Shape, TypeId, Types};
use dm_value::{At, Name, Part, Path, Pointer};
use std::alloc::Global;
use std::rc::Rc;

/// The most elements by which an address moves, in either direction.
const MOST: i128 = 1 << 64;

/// The address of a place.
fn to(alloc: Global, at: At) -> Result<Pointer, Memory>
    ensures { IfOk result (λ pointer. view_of_pointer pointer ≡ values.to (view_of_at at)) }
{
    let place = Rc::new(alloc, at)?;
    Ok(Pointer::To(place))
}

/// The address of a whole object.
pub(crate) fn to_whole(alloc: Global, name: Name) -> Result<Pointer, Memory>
    ensures { IfOk result (λ pointer. view_of_pointer pointer ≡ values.to (operations.whole (view_of_name name))) }
{
    let pointer = to(alloc, At::whole(name))?;
    Ok(pointer)
}

/// The address of a part of what is pointed to.
pub(crate) fn into_part(alloc: Global, pointer: &Pointer, number: u32) -> Result<Pointer, Memory>
    ensures { IfOk result (λ part. view_of_pointer part ≡ units.pointer_into (view_of_pointer pointer.now) number) }
{
    match pointer {
        Pointer::Null => Ok(Pointer::Null),
        Pointer::To(at) => {
            let part = at.as_ref().part(alloc, number)?;
            let pointer = to(alloc, part)?;
            Ok(pointer)
        }
    }
}

/// The address that is so many elements further on, where the type is that of a pointer.
pub(crate) fn shifted(
    alloc: Global,
    scene: &Scene,
    kind: TypeId,
    pointer: &Pointer,
    count: i128,
) -> Result<Pointer, Memory>
    requires scene { SceneFits scene.now }
    requires kind { IsId (types_in scene.now) kind }
    requires count { IsCount count }
    ensures { IfOk result (λ moved. view_of_pointer moved
        ≡ units.pointer_moved (program_in scene.now) (memory_in scene.now) (type_of (types_in scene.now) kind) (view_of_pointer pointer.now) count) }
{
    match scene.layout().types().shape(kind) {
        Shape::Pointer(target) => {
            let moved = further(alloc, scene, *target, pointer, count)?;
            Ok(moved)
        }
        _ => Ok(Pointer::Null),
    }
}

/// The address that is so many elements of a type further on.
fn further(
    alloc: Global,
    scene: &Scene,
    target: TypeId,
    pointer: &Pointer,
    count: i128,
) -> Result<Pointer, Memory>
    requires scene { SceneFits scene.now }
    requires target { IsId (types_in scene.now) target }
    requires count { IsCount count }
    ensures { IfOk result (λ moved. view_of_pointer moved
        ≡ units.pointer_moved (program_in scene.now) (memory_in scene.now) (ctypes.pointer (type_of (types_in scene.now) target)) (view_of_pointer pointer.now) count) }
{
    let moved = moved_pointer(alloc, scene.layout(), scene.blocks, target, pointer, count)?;
    match moved {
        Some(moved) => Ok(moved),
        None => {
            let beyond = beyond(alloc, pointer)?;
            Ok(beyond)
        }
    }
}

/// An address in the same object that is no place in it.
fn beyond(alloc: Global, pointer: &Pointer) -> Result<Pointer, Memory>
    ensures { IfOk result (λ beyond. view_of_pointer beyond ≡ units.or_beyond (view_of_pointer pointer.now) None) }
{
    match pointer {
        Pointer::Null => Ok(Pointer::Null),
        Pointer::To(at) => {
            let name = at.as_ref().name.copy()?;
            let path = twice_past(alloc)?;
            let pointer = to(alloc, At { name, path })?;
            Ok(pointer)
        }
    }
}

/// The path to what is one past an object that is one past another.
fn twice_past(alloc: Global) -> Result<Path, Memory>
    ensures { IfOk result (λ path. path ≡ values.past ∷ values.past ∷ []) }
{
    let mut steps = Vec::new(alloc);
    steps.push(Part::Past)?;
    steps.push(Part::Past)?;
    let path = Path::of(alloc, steps)?;
    Ok(path)
}

/// By how many elements an integer constant expression moves an address, 0 where it has no value. A number whose magnitude is
/// greater than 2 to the 64, which no integer type has, counts as want of memory.
pub(crate) fn count(scene: &Scene, tree: &Core) -> Result<i128, Memory>
    requires { TreeFits scene.now tree.now }
    ensures { IfOk result (λ count. (count ≡ operations.or_zero (programs.constant_of (program_in scene.now) (view (types_in scene.now) tree.now))) × IsCount count) }
{
    let count = or_zero(scene.program.constant(tree));
    if -MOST <= count && count <= MOST {
        Ok(count)
    } else {
        Err(Memory)
    }
}

fn or_zero(number: Option<i128>) -> i128
    ensures { result ≡ operations.or_zero number }
{
    match number {
        Some(number) => number,
        None => 0,
    }
}

/// The same in the direction of an operator.
pub(crate) fn in_direction(op: Op, count: i128) -> i128
    requires { IsCount count }
    ensures count { result ≡ operations.move_of op count }
    ensures within { IsCount result }
{
    match op {
        Op::Sub => negative(count),
        _ => count,
    }
}

/// As many elements the other way.
fn negative(count: i128) -> i128
    requires { IsCount count }
    ensures value { result ≡ neg_ℤ count }
    ensures within { IsCount result }
{
    -count
}

/// Whether a type is that of a pointer.
pub(crate) fn is_pointer(types: &Types, kind: TypeId) -> bool
    requires { IsId types.now kind }
    ensures { result ≡ units.is_pointer (type_of types.now kind) }
{
    match types.shape(kind) {
        Shape::Pointer(_) => true,
        _ => false,
    }
}
