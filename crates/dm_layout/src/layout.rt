//! What paths lead to in objects of the program's types (6.2.5p20, 6.7.2.1).

ghost use Rattle.std.specs.Prelude.{◌≡◌, IfOk, map};
ghost use Rattle.dm_type.specs.CTypes as ctypes;
ghost use Rattle.dm_type.specs.Tables.{Has, IsId, type_of};
ghost use Rattle.dm_meaning.specs.Objects as objects;
ghost use Rattle.dm_layout.specs.Kinds.{type_of_object, IsKnownType};
ghost use Rattle.dm_value.specs.Parts.{view_of_part};
ghost use Rattle.dm_layout.specs.LaidOut.{laid_out, view_of_element, view_of_reached, IsKnown, IsKnownElement};

use crate::fields::fields;
use crate::kinds::ObjectType;
use dm_token::{List, Memory};
use dm_type::{Shape, TypeId, Types};
use dm_value::Part;
use std::alloc::Global;
use std::marker::Model;

/// A member of a struct: its type, and its first byte.
#[derive(Drop)]
pub struct Field {
    pub kind: TypeId,
    pub offset: u64,
}

/// The types of a program, with the members of each struct and where they begin. Contracts see the table of the types.
#[derive(Drop)]
pub struct Layout<'a> {
    types: &'a Types,
    /// By the number of the struct.
    fields: List<List<Field>>,
}

impl<'a> Model for Layout<'a> {
    ghost use Rattle.dm_type.specs.Tables.{Table};
    ghost use Rattle.dm_layout.specs.Fields.{AreFields};

    ghost Value = { Table };

    ghost view = { λ layout. layout.types.now };

    ghost invariant = { λ layout. AreFields layout.types.now layout.fields };
}

/// A part of an object that isn't const itself.
#[derive(Drop)]
pub enum Element {
    /// One of this type.
    Of(TypeId),
    /// No element of the array.
    Outside,
    /// Nothing that an object of this type has.
    Foreign,
}

/// What a path leads to.
#[derive(Drop)]
pub enum Reached {
    /// An object of this type, and whether it is const or part of one that is (6.7.3p9).
    Object(TypeId, bool),
    /// No element of the array.
    Outside,
    /// Nothing that an object of this type has.
    Foreign,
    /// Nothing that is known: the object isn't there.
    Unknown,
    /// The array of a string literal, of so many characters with the closing 0 (6.4.5p6).
    Text(u64),
    /// A character of a string literal.
    Character,
}

impl<'a> Layout<'a> {
    /// How these types are laid out.
    pub fn of(alloc: Global, types: &'a Types) -> Result<Layout<'a>, Memory>
        ensures { IfOk result (λ layout. layout ≡ types.now) }
    {
        let mut all = Vec::new(alloc);
        for number in 0..types.struct_count() {
            let Ok(structure) = u32::try_from(number) else {
                return Err(Memory);
            };
            all.push(fields(alloc, types, structure)?)?;
        }
        Ok(Layout {
            types,
            fields: List::from_vec(all),
        })
    }

    /// The types themselves.
    pub fn types(&self) -> &'a Types
        ensures { result.now ≡ self.now }
    {
        self.types
    }

    /// A part of an object that isn't const itself.
    pub fn element(&self, id: TypeId, number: u32) -> Element
        requires { IsId self.now id }
        ensures view { view_of_element self.now result ≡ objects.element (laid_out self.now) (type_of self.now id) number }
        ensures known { IsKnownElement self.now result }
    {
        match self.types.shape(id) {
            Shape::Array(inner, Some(count)) => {
                if u64::from(number) < *count {
                    Element::Of(*inner)
                } else {
                    Element::Outside
                }
            }
            Shape::Struct(structure) => self.member(*structure, number),
            _ => Element::Foreign,
        }
    }

    /// A member of a struct, where it has one of this number.
    fn member(&self, structure: u32, number: u32) -> Element
        ensures view { view_of_element self.now result ≡ objects.element (laid_out self.now) (ctypes.struct structure) number }
        ensures known { IsKnownElement self.now result }
    {
        let Some(fields) = self.fields.items().get(structure as usize) else {
            return Element::Foreign;
        };
        match fields.items().get(number as usize) {
            Some(field) => Element::Of(field.kind),
            None => Element::Foreign,
        }
    }

    /// The type of a member of a struct, where it has one of this number.
    pub(crate) fn member_kind(&self, structure: u32, number: u32) -> ObjectType
        ensures kind { type_of_object self.now result ≡ objects.inner_type (laid_out self.now) (ctypes.struct structure) number }
        ensures known { IsKnownType self.now result }
    {
        let Some(fields) = self.fields.items().get(structure as usize) else {
            return ObjectType::Void;
        };
        match fields.items().get(number as usize) {
            Some(field) => ObjectType::Known(field.kind),
            None => ObjectType::Void,
        }
    }

    /// The first byte of a member of a struct, where it has one of this number.
    pub(crate) fn member_offset(&self, structure: u32, number: u32) -> u64
        ensures { result ≡ objects.offset_of (laid_out self.now) (ctypes.struct structure) number }
    {
        let Some(fields) = self.fields.items().get(structure as usize) else {
            return 0;
        };
        match fields.items().get(number as usize) {
            Some(field) => field.offset,
            None => 0,
        }
    }

    /// What a path leads to in an object of a type, which may be part of a const one.
    pub fn reached(&self, id: TypeId, fixed: bool, steps: &[Part]) -> Reached
        requires { IsId self.now id }
        ensures view { view_of_reached self.now result ≡ objects.part_at (laid_out self.now) fixed (type_of self.now id) (map view_of_part steps.now) }
        ensures known { IsKnown self.now result }
    {
        let mut at = id;
        let mut within = fixed;
        let mut left = steps;
        while let Some((first, rest)) = left.split_first() {
            let Part::Inner(number) = first else {
                return Reached::Outside;
            };
            match self.element(bare(self.types(), at), *number) {
                Element::Of(kind) => {
                    within = within || is_const(self.types(), at);
                    at = kind;
                    left = rest;
                }
                Element::Outside => return Reached::Outside,
                Element::Foreign => return Reached::Foreign,
            }
        }
        Reached::Object(bare(self.types(), at), within || is_const(self.types(), at))
    }
}

/// A type without its own const.
pub fn bare(types: &Types, id: TypeId) -> TypeId
    requires { IsId types.now id }
    ensures { Has types.now result (ctypes.bare (type_of types.now id)) }
{
    match types.shape(id) {
        Shape::Const(inner) => *inner,
        _ => id,
    }
}

/// Whether a type is const itself.
pub fn is_const(types: &Types, id: TypeId) -> bool
    requires { IsId types.now id }
    ensures { result ≡ ctypes.is_const (type_of types.now id) }
{
    match types.shape(id) {
        Shape::Const(_) => true,
        _ => false,
    }
}
