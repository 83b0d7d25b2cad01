//! How a type is made of other types.

ghost use Rattle.std.specs.Prelude.{◌≡◌};

use crate::layout::Layout;
use crate::members::Members;
use dm_int::Kind;
use dm_token::{List, Text};
use std::hash::{Hash, Hasher};
use std::marker::Model;

/// The number of a type in the `Types` that gave it. Equal types of one `Types` have one number.
#[derive(Clone, Copy, Debug, PartialEq, Eq, Hash)]
pub struct TypeId {
    number: u32,
}

impl Model for TypeId {
    ghost use Rattle.std.specs.Prelude.{ℕ};

    ghost Value = { ℕ };

    ghost view = { λ id. id.number };

    ghost inverse = { λ number. record { number = number } };
}

impl TypeId {
    pub(crate) fn new(number: u32) -> TypeId
        ensures { result ≡ number }
    {
        TypeId { number }
    }

    pub(crate) fn index(self) -> usize
        ensures { result ≡ self }
    {
        self.number as usize
    }
}

/// A type, in terms of the types that it is made of (6.2.5p20).
#[derive(Debug, PartialEq, Eq, Drop)]
pub enum Shape {
    Void,
    Integer(Kind),
    Pointer(TypeId),
    /// The type of the elements, and how many there are, if that is known: at least 1.
    Array(TypeId, Option<u64>),
    /// The number that `new_struct` gave.
    Struct(u32),
    /// The type of the result, and those of the parameters.
    Function(TypeId, List<TypeId>),
    /// The const-qualified version of a type (6.2.5p26). Of an array type it is the array of const elements (6.7.3p9).
    Const(TypeId),
}

impl Hash for Shape {
    ghost use Rattle.dm_type.specs.Hashing.{alike, fed_shape};

    ghost hash_input = { fed_shape };

    ghost respects_eq = { alike };

    fn hash<H: Hasher>(&self, state: &mut H) {
        match self {
            Shape::Void => state.write_u8(0),
            Shape::Integer(kind) => {
                state.write_u8(1);
                kind.hash(state);
            }
            Shape::Pointer(target) => {
                state.write_u8(2);
                target.hash(state);
            }
            Shape::Array(element, length) => {
                state.write_u8(3);
                element.hash(state);
                length.hash(state);
            }
            Shape::Struct(number) => {
                state.write_u8(4);
                number.hash(state);
            }
            Shape::Function(answer, parameters) => {
                state.write_u8(5);
                answer.hash(state);
                parameters.items().hash(state);
            }
            Shape::Const(constant) => {
                state.write_u8(6);
                constant.hash(state);
            }
        }
    }
}

/// A member of a struct (6.7.2.1).
#[derive(Debug, PartialEq, Eq, Drop)]
pub struct Member {
    pub name: Text,
    pub kind: TypeId,
}

/// What stands between the braces of a struct.
#[derive(Drop)]
pub(crate) struct Content {
    pub members: Members,
    /// None where it takes more bytes than the greatest size.
    pub layout: Option<Layout>,
}

/// A struct type. It is incomplete as long as it has no content.
#[derive(Drop)]
pub(crate) struct Struct {
    pub tag: Option<Text>,
    pub content: Option<Content>,
}
