//! Values that initialisers give objects of static storage duration (6.7.9).

ghost use Rattle.std.specs.Prelude.{◌≡◌, IfOk, map, length};
ghost use Rattle.dm_layout.specs.Kinds.{type_of_object, IsKnownType};
ghost use Rattle.dm_value.specs.Views.{view_of_value};
ghost use Rattle.dm_start.specs.Scenes.{parts_from, types_in, value_in, InitialFits, InitialsFit, SceneFits};

use crate::scalar::scalar;
use crate::scene::Scene;
use dm_first_value::completed;
use dm_layout::{ObjectType, bare_kind, inner};
use dm_token::Memory;
use dm_tree::Initial;
use dm_value::Value;
use std::alloc::Global;

/// The value that an initialiser gives an object of a type.
#[cycle(initial)]
pub(crate) fn first_value(
    alloc: Global,
    scene: &Scene,
    kind: &ObjectType,
    initial: &Initial,
) -> Result<Value, Memory>
    requires scene { SceneFits scene.now }
    requires kind { IsKnownType (types_in scene.now) kind.now }
    requires initial { InitialFits scene.now initial.now }
    ensures { IfOk result (λ value. view_of_value value ≡ value_in scene.now (type_of_object (types_in scene.now) kind.now) initial.now) }
{
    match initial {
        Initial::Value(tree) => {
            let value = scalar(alloc, scene, kind, tree.get())?;
            Ok(value)
        }
        Initial::Parts(items) => {
            let given = first_parts(alloc, scene, kind, items.items())?;
            let value = completed(alloc, scene.layout(), kind, given)?;
            Ok(value)
        }
    }
}

/// The values of the first parts of an object of a type, by initialisers for them.
#[cycle(initial)]
fn first_parts(
    alloc: Global,
    scene: &Scene,
    kind: &ObjectType,
    items: &[Initial],
) -> Result<Vec<Value>, Memory>
    requires scene { SceneFits scene.now }
    requires kind { IsKnownType (types_in scene.now) kind.now }
    requires items { InitialsFit scene.now items.now }
    ensures parts { IfOk result (λ given. map view_of_value given.items ≡ parts_from scene.now (type_of_object (types_in scene.now) kind.now) 0 items.now) }
    ensures count { IfOk result (λ given. length given.items ≡ length items.now) }
{
    let whole = bare_kind(scene.layout(), kind);
    let mut given = Vec::new(alloc);
    let mut number = 0u32;
    let mut left = items;
    while let Some((item, rest)) = left.split_first() {
        let part = inner(scene.layout(), &whole, number);
        given.push(first_value(alloc, scene, &part, item)?)?;
        number = number.checked_add(1).ok_or(Memory)?;
        left = rest;
    }
    Ok(given)
}
