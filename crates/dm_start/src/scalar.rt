//! Values that single expressions give objects of static storage duration (6.7.9p4, p11, p14).

ghost use Rattle.std.specs.Prelude.{◌≡◌, not, IfOk};
ghost use Rattle.dm_int.specs.Kinds as kinds;
ghost use Rattle.dm_int.specs.Operators as operators;
ghost use Rattle.dm_type.specs.CTypes.{bare};
ghost use Rattle.dm_type.specs.Tables.{IsId, Table, type_of};
ghost use Rattle.dm_tree.specs.Views.{view};
ghost use Rattle.dm_layout.specs.Kinds.{type_of_object, IsKnownType};
ghost use Rattle.dm_meaning.specs.Causes.{is_null};
ghost use Rattle.dm_meaning.specs.Programs as programs;
ghost use Rattle.dm_meaning.specs.Units as units;
ghost use Rattle.dm_meaning.specs.Values as values;
ghost use Rattle.dm_value.specs.Views.{view_of_pointer, view_of_value};
ghost use Rattle.dm_first_value.specs.Texts.{characters_in};
ghost use Rattle.dm_start.specs.Scenes.{address_in, program_in, scalar_in, types_in, SceneFits, TreeFits};

use crate::address::address;
use crate::scene::Scene;
use dm_first_value::text_array;
use dm_int::{Kind, convert};
use dm_layout::{ObjectType, bare_kind};
use dm_token::Memory;
use dm_tree::{Core, Form};
use dm_type::{Shape, TypeId};
use dm_value::{Integer, Pointer, Value};
use std::alloc::Global;

/// The value that an expression gives an object of a type, const or not, converted to that type.
pub(crate) fn scalar(
    alloc: Global,
    scene: &Scene,
    kind: &ObjectType,
    tree: &Core,
) -> Result<Value, Memory>
    requires scene { SceneFits scene.now }
    requires kind { IsKnownType (types_in scene.now) kind.now }
    requires tree { TreeFits scene.now tree.now }
    ensures { IfOk result (λ value. view_of_value value ≡ scalar_in scene.now (bare (type_of_object (types_in scene.now) kind.now)) tree.now) }
{
    let kind = bare_kind(scene.layout(), kind);
    match kind {
        ObjectType::Known(kind) => {
            let value = known_scalar(alloc, scene, kind, tree)?;
            Ok(value)
        }
        ObjectType::Character => {
            let value = integer(alloc, scene, Kind::Char, tree)?;
            Ok(value)
        }
        ObjectType::Void => Ok(Value::Unset),
        ObjectType::Text(_) => {
            let value = text_array(alloc, scene.layout(), &kind, literal(tree))?;
            Ok(value)
        }
    }
}

/// The same for a type with a number that isn't const.
fn known_scalar(alloc: Global, scene: &Scene, kind: TypeId, tree: &Core) -> Result<Value, Memory>
    requires scene { SceneFits scene.now }
    requires kind { IsId (types_in scene.now) kind }
    requires tree { TreeFits scene.now tree.now }
    ensures { IfOk result (λ value. view_of_value value ≡ scalar_in scene.now (type_of (types_in scene.now) kind) tree.now) }
{
    match scene.layout().types().shape(kind) {
        Shape::Integer(kind) => {
            let value = integer(alloc, scene, *kind, tree)?;
            Ok(value)
        }
        Shape::Pointer(_) => {
            let pointer = address(alloc, scene, tree)?;
            Ok(Value::Pointer(pointer))
        }
        Shape::Array(_, _) => {
            let value = text_array(
                alloc,
                scene.layout(),
                &ObjectType::Known(kind),
                literal(tree),
            )?;
            Ok(value)
        }
        _ => Ok(Value::Unset),
    }
}

/// The value of an integer constant expression, or the truth of an address that is converted to `_Bool`, in a kind.
fn integer(alloc: Global, scene: &Scene, kind: Kind, tree: &Core) -> Result<Value, Memory>
    requires scene { SceneFits scene.now }
    requires tree { TreeFits scene.now tree.now }
    ensures { IfOk result (λ value. view_of_value value ≡ values.integer_value kind (kinds.convert kind
        (units.number_or (programs.constant_of (program_in scene.now) (view (types_in scene.now) tree.now)) (address_in scene.now tree.now)))) }
{
    match scene.program.constant(tree) {
        Some(number) => Ok(Value::Integer(Integer::new(kind, convert(kind, number)))),
        None => {
            let pointer = address(alloc, scene, tree)?;
            Ok(Value::Integer(Integer::new(kind, convert(kind, truth(&pointer)))))
        }
    }
}

/// 0 for a null pointer, and 1 for any other.
fn truth(pointer: &Pointer) -> i128
    ensures { result ≡ operators.truth (not (is_null (view_of_pointer pointer.now))) }
{
    if pointer.is_null() { 0 } else { 1 }
}

/// The bytes of a string literal.
fn literal(tree: &Core) -> Option<&[u8]>
    ensures { (table : Table) → characters_in result ≡ units.characters_of (view table tree.now) }
{
    match &tree.form {
        Form::Literal(bytes, _) => Some(bytes.bytes()),
        _ => None,
    }
}
