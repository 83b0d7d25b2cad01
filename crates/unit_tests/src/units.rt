//! The typed trees of a unit, in words.

ghost use Rattle.dm_type.specs.Tables.{IsId, IsShape};

use crate::typing::TypedUnit;
use dm_int::Kind;
use dm_token::{List, Text};
use dm_tree::{CoreExternal, Declared};
use dm_type::{Shape, TypeId, Types};
use std::alloc::Global;
use std::test::Fail;
use tree_words::entries::structs_of;
use tree_words::trees::{Words, put_external};

/// Adds a type with its words.
fn add_kind(
    alloc: Global,
    kinds: &mut List<(TypeId, Text)>,
    types: &Types,
    kind: TypeId,
) -> Result<(), Fail>
    requires { IsId types.now kind }
{
    let structs = structs_of(alloc, types)?;
    let nothing = Text::new(alloc, "")?;
    if let Some(words) = types.spell(kind, &nothing, structs.items())? {
        kinds.push((kind, words))?;
    }
    Ok(())
}

/// Adds a type of this shape, and the pointer to it.
fn add_shape(
    alloc: Global,
    kinds: &mut List<(TypeId, Text)>,
    types: &mut Types,
    shape: Shape,
) -> Result<(), Fail>
    requires { IsShape types.old shape }
{
    let kind = types.intern(shape)?;
    add_kind(alloc, kinds, types, kind)?;
    let pointer = types.intern(Shape::Pointer(kind))?;
    add_kind(alloc, kinds, types, pointer)
}

const INTEGERS: [Kind; 12] = [
    Kind::Bool,
    Kind::Char,
    Kind::SChar,
    Kind::UChar,
    Kind::Short,
    Kind::UShort,
    Kind::Int,
    Kind::UInt,
    Kind::Long,
    Kind::ULong,
    Kind::LLong,
    Kind::ULLong,
];

/// The types of all entries, `void` and the integers, and pointers to these.
fn kinds_of(
    alloc: Global,
    made: TypedUnit,
) -> Result<(List<Declared>, List<(TypeId, Text)>, List<CoreExternal>), Fail> {
    let mut kinds = List::new(alloc);
    for entry in made.unit.declared.items() {
        add_kind(alloc, &mut kinds, &made.types, entry.kind)?;
    }
    let TypedUnit { unit, mut types } = made;
    add_shape(alloc, &mut kinds, &mut types, Shape::Void)?;
    for integer in INTEGERS {
        add_shape(alloc, &mut kinds, &mut types, Shape::Integer(integer))?;
    }
    Ok((unit.declared, kinds, unit.externals))
}

/// All external declarations of a unit, each with a semicolon.
pub fn externals(alloc: Global, made: TypedUnit) -> Result<String, Fail> {
    let (declared, kinds, externals) = kinds_of(alloc, made)?;
    let words = Words {
        declared: declared.items(),
        kinds: kinds.items(),
        spans: false,
    };
    let mut out = String::new(alloc);
    for external in externals.items() {
        put_external(&mut out, &words, external)?;
        out.push_str(" ;")?;
    }
    Ok(out)
}
