//! Addresses that are constant expressions (6.6p9).

ghost use Rattle.std.specs.Prelude.{◌≡◌, IfOk};
ghost use Rattle.dm_value.specs.Views.{view_of_pointer};
ghost use Rattle.dm_start.specs.Scenes.{address_in, SceneFits, TreeFits};

use crate::moving::{count, in_direction, into_part, is_pointer, shifted, to_whole};
use crate::scene::Scene;
use dm_token::Memory;
use dm_tree::{Core, Form};
use dm_value::{Name, Pointer};
use std::alloc::Global;

/// The address that a tree gives, or that of the object that it designates. What is no address is a null pointer.
pub(crate) fn address(alloc: Global, scene: &Scene, tree: &Core) -> Result<Pointer, Memory>
    requires scene { SceneFits scene.now }
    requires tree { TreeFits scene.now tree.now }
    ensures { IfOk result (λ pointer. view_of_pointer pointer ≡ address_in scene.now tree.now) }
{
    match &tree.form {
        Form::Object(declared) => {
            let name = scene.name(alloc, *declared)?;
            let pointer = to_whole(alloc, name)?;
            Ok(pointer)
        }
        Form::Literal(bytes, unit) => {
            let bytes = bytes.copy()?;
            let pointer = to_whole(alloc, Name::Literal(bytes, *unit))?;
            Ok(pointer)
        }
        Form::Member(whole, number) => {
            let pointer = address(alloc, scene, whole.get())?;
            let part = into_part(alloc, &pointer, *number)?;
            Ok(part)
        }
        Form::Decay(whole) => {
            let pointer = address(alloc, scene, whole.get())?;
            let first = into_part(alloc, &pointer, 0)?;
            Ok(first)
        }
        Form::Binary(op, left, right) => {
            if is_pointer(scene.layout().types(), left.get().kind) {
                let pointer = address(alloc, scene, left.get())?;
                let count = in_direction(*op, count(scene, right.get())?);
                let moved = shifted(alloc, scene, tree.kind, &pointer, count)?;
                Ok(moved)
            } else {
                let pointer = address(alloc, scene, right.get())?;
                let count = count(scene, left.get())?;
                let moved = shifted(alloc, scene, tree.kind, &pointer, count)?;
                Ok(moved)
            }
        }
        Form::Convert(operand, _) | Form::Address(operand) | Form::Follow(operand) => {
            let pointer = address(alloc, scene, operand.get())?;
            Ok(pointer)
        }
        _ => Ok(Pointer::Null),
    }
}
