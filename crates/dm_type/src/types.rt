//! The types of a translation unit by number.

ghost use Rattle.std.specs.Prelude.{◌≡◌, ◌<◌, ◌≤◌, ℕ, [], ◌≢◌, None, Some, All, length, is_some, IsOk, slice_get, slice_index_or, option_map, option_and_then, IfOk, IfSome, OnOk, OnErr};
ghost use Rattle.std.specs.Option.{option_copied};
ghost use Rattle.dm_type.specs.Tables as tables;
ghost use Rattle.dm_type.specs.Layouts as layouts;
ghost use Rattle.dm_type.specs.Sound as sound;
ghost use Rattle.dm_type.specs.CTypes.{with_const};
ghost use Rattle.dm_type.specs.Naming.{member_named};
ghost use Rattle.dm_type.specs.Wraps.{arrayed, IsNoArray};

use crate::layout::Layout;
use crate::members::Members;
use crate::shape::{Content, Member, Shape, Struct, TypeId};
use dm_token::{Memory, Text};
use indexmap::IndexSet;
use std::alloc::Global;
use std::marker::Model;

/// The types and structs of a translation unit. Contracts see it as a table of shapes and structs, from which each
/// type is written out in full.
#[derive(Drop)]
pub struct Types {
    pub(crate) shapes: IndexSet<Shape>,
    /// How many parts each of these types has, written out. No clause says so: the numbers only steer in which order
    /// `compatible` looks at parts.
    pub(crate) parts: Vec<u32>,
    pub(crate) structs: Vec<Struct>,
}

impl Model for Types {
    ghost use Rattle.std.specs.Prelude.{◌≡◌, ◌<◌, ◌^◌, length};
    ghost use Rattle.dm_type.specs.Tables.{Table};

    ghost Value = { Table };

    ghost use Rattle.dm_type.specs.Sound.{IsSound};

    ghost view = { λ types. record { shapes = types.shapes.keys; structs = types.structs.items } };

    ghost invariant = { λ types. IsSound (record { shapes = types.shapes.keys; structs = types.structs.items }) × (length types.parts.items ≡ length types.shapes.keys) × (length types.shapes.keys < 2 ^ 32) };
}

/// The greatest number of types.
const MOST_TYPES: usize = u32::MAX as usize;

impl Types {
    /// The table of no type. It takes no memory.
    pub fn new(alloc: Global) -> Result<Types, Memory>
        ensures { IfOk result (λ types. types ≡ tables.no_type) }
    {
        Ok(Types {
            shapes: IndexSet::new(alloc),
            parts: Vec::new(alloc),
            structs: Vec::new(alloc),
        })
    }

    /// How a type is made of others.
    pub fn shape(&self, id: TypeId) -> &Shape
        requires { tables.IsId self.now id }
        ensures shape { slice_get self.now.shapes id ≡ Some result.now }
        ensures typed { tables.Has self.now id (tables.shaped self.now result.now) }
        ensures exact { tables.type_of self.now id ≡ tables.as_is (tables.types_of self.now.shapes) result.now }
        ensures over { tables.IsShape self.now result.now }
        ensures below { sound.IsBelow id (length self.now.structs) result.now }
        ensures plain { sound.IsPlain self.now.shapes result.now }
        ensures distinct { tables.AreDistinct self.now }
    {
        &self.shapes.as_slice()[id.index()]
    }

    /// The number of a type. Types that are equal, such as an array of const elements and the const version of the
    /// array, have one number. After an `Err` nothing is changed. Parts of a type, written out, that 32 bits can't
    /// count are meant to be want of memory too.
    pub fn intern(&mut self, shape: Shape) -> Result<TypeId, Memory>
        requires { tables.IsShape self.old shape }
        ensures typed { IfOk result (λ id. tables.Has self.new id (tables.shaped self.old shape)) }
        ensures kept { OnOk result (tables.Extends self.old self.new) }
        ensures distinct { OnOk result (tables.AreDistinct self.new) }
        ensures err { OnErr result (self.new ≡ self.old) }
    {
        match shape {
            Shape::Const(id) => self.qualify(id),
            shape => self.number(shape),
        }
    }

    /// The const-qualified version of a type. The const of an array goes to its elements.
    fn qualify(&mut self, id: TypeId) -> Result<TypeId, Memory>
        requires { tables.IsId self.old id }
        ensures typed { IfOk result (λ new. tables.Has self.new new (with_const (tables.type_of self.old id))) }
        ensures kept { OnOk result (tables.Extends self.old self.new) }
        ensures distinct { OnOk result (tables.AreDistinct self.new) }
        ensures err { OnErr result (self.new ≡ self.old) }
    {
        let before = self.shapes.len();
        match self.qualified(id) {
            Ok(id) => Ok(id),
            Err(memory) => {
                self.shapes.truncate(before);
                self.parts.truncate(before);
                Err(memory)
            }
        }
    }

    /// The same, which may leave more types after an `Err`.
    fn qualified(&mut self, id: TypeId) -> Result<TypeId, Memory>
        requires { tables.IsId self.old id }
        ensures typed { IfOk result (λ new. tables.Has self.new new (with_const (tables.type_of self.old id))) }
        ensures kept { tables.Extends self.old self.new }
        ensures distinct { OnOk result (tables.AreDistinct self.new) }
    {
        let (lengths, element) = self.dimensions(id)?;
        let element = self.with_own_const(element)?;
        self.arrays(element, lengths)
    }

    /// The lengths of an array of arrays from the outside inwards, and the type of the elements inside.
    fn dimensions(&self, id: TypeId) -> Result<(Vec<Option<u64>>, TypeId), Memory>
        requires { tables.IsId self.now id }
        ensures same { IfOk result (λ found. arrayed found.0.items (tables.type_of self.now found.1) ≡ tables.type_of self.now id) }
        ensures lengths { IfOk result (λ found. All tables.IsLength found.0.items) }
        ensures within { IfOk result (λ found. tables.IsId self.now found.1) }
        ensures element { IfOk result (λ found. IsNoArray (slice_index_or self.now.shapes found.1 Shape.Void)) }
    {
        let mut lengths = Vec::new(*self.parts.allocator());
        let mut element = id;
        while let Shape::Array(inner, length) = self.shape(element) {
            lengths.push(*length)?;
            element = *inner;
        }
        Ok((lengths, element))
    }

    /// The const-qualified version of a type that is no array.
    fn with_own_const(&mut self, id: TypeId) -> Result<TypeId, Memory>
        requires within { tables.IsId self.old id }
        requires element { IsNoArray (slice_index_or self.old.shapes id Shape.Void) }
        ensures typed { IfOk result (λ new. tables.Has self.new new (with_const (tables.type_of self.old id))) }
        ensures kept { tables.Extends self.old self.new }
    {
        if let Shape::Const(_) = self.shape(id) {
            return Ok(id);
        }
        self.number(Shape::Const(id))
    }

    /// The array of arrays with these lengths from the outside inwards.
    fn arrays(&mut self, element: TypeId, lengths: Vec<Option<u64>>) -> Result<TypeId, Memory>
        requires within { tables.IsId self.old element }
        requires lengths { All tables.IsLength lengths.items }
        ensures typed { IfOk result (λ new. tables.Has self.new new (arrayed lengths.items (tables.type_of self.old element))) }
        ensures distinct { OnOk result (tables.AreDistinct self.new) }
        ensures kept { tables.Extends self.old self.new }
    {
        // With it the invariant of the table is known in the loop.
        let _ = &self.shapes;
        let mut lengths = lengths;
        let mut id = element;
        while let Some(length) = lengths.pop() {
            id = self.number(Shape::Array(id, length))?;
        }
        Ok(id)
    }

    /// The number of a type that is written as its shape says.
    fn number(&mut self, shape: Shape) -> Result<TypeId, Memory>
        requires shape { tables.IsShape self.old shape }
        requires plain { sound.IsPlain self.old.shapes shape }
        ensures typed { IfOk result (λ id. tables.Has self.new id (tables.shaped self.old shape)) }
        ensures kept { tables.Extends self.old self.new }
        ensures distinct { OnOk result (tables.AreDistinct self.new) }
        ensures err { OnErr result (self.new ≡ self.old) }
    {
        if let Some(number) = self.shapes.get_index_of(&shape) {
            return Ok(TypeId::new(number as u32));
        }
        let parts = self.parts_of(&shape)?;
        if self.shapes.len() >= MOST_TYPES {
            return Err(Memory);
        }
        self.parts.reserve(1)?;
        let (number, _) = self.shapes.insert_full(shape)?;
        self.parts.push_reserved(parts);
        Ok(TypeId::new(number as u32))
    }

    /// How many parts a type has, written out.
    fn parts_of(&self, shape: &Shape) -> Result<u32, Memory> {
        let parts = match shape {
            Shape::Void | Shape::Integer(_) | Shape::Struct(_) => Some(1),
            Shape::Pointer(id) | Shape::Array(id, _) | Shape::Const(id) => self
                .parts(*id)
                .checked_add(1),
            Shape::Function(result, parameters) => self.sum(
                self.parts(*result),
                parameters.items(),
            ),
        };
        parts.ok_or(Memory)
    }

    fn sum(&self, first: u32, parameters: &[TypeId]) -> Option<u32> {
        let mut sum = first.checked_add(1)?;
        for parameter in parameters {
            sum = sum.checked_add(self.parts(*parameter))?;
        }
        Some(sum)
    }

    /// How many parts the type of a number has, written out.
    pub(crate) fn parts(&self, id: TypeId) -> u32 {
        self.parts.get(id.index()).copied().unwrap_or(0)
    }

    /// How many structs there are.
    pub fn struct_count(&self) -> usize
        ensures { result ≡ length self.now.structs }
    {
        self.structs.len()
    }

    /// A struct of which nothing is known but its tag, and its number. After an `Err` nothing is changed.
    pub fn new_struct(&mut self, tag: Option<Text>) -> Result<u32, Memory>
        requires { length self.old.structs < 4294967295 }
        ensures number { IfOk result (λ number. number ≡ length self.old.structs) }
        ensures ok { OnOk result (self.new ≡ tables.with_struct self.old tag) }
        ensures err { OnErr result (self.new ≡ self.old) }
    {
        let number = self.structs.len() as u32;
        self.structs.push(Struct { tag, content: None })?;
        Ok(number)
    }

    /// Gives a struct its members, in their order. It takes no memory.
    pub fn set_members(&mut self, number: u32, members: Members) -> Result<(), Memory>
        requires number { number < length self.old.structs }
        requires unset { tables.members_of self.old number ≡ None }
        requires some { members ≢ [] }
        requires types { All (λ member. tables.IsId self.old member.kind) members }
        ensures always { IsOk result }
        ensures members { self.new ≡ tables.with_content self.old number (layouts.contained self.old members) }
    {
        let layout = self.struct_layout(members.items());
        let entry = &mut self.structs[number as usize];
        entry.content = Some(Content { members, layout });
        Ok(())
    }

    /// The tag of a struct, if it has one.
    pub fn tag(&self, number: u32) -> Option<&Text>
        requires { number < length self.now.structs }
        ensures { option_copied result ≡ tables.tag_of self.now number }
    {
        self.structs[number as usize].tag.as_ref()
    }

    /// The members of a struct, if they are set.
    pub fn members(&self, number: u32) -> Option<&[Member]>
        requires { number < length self.now.structs }
        ensures members { option_copied result ≡ tables.members_of self.now number }
        ensures types { IfSome result (λ members. All (λ member. tables.IsId self.now member.kind) members.now) }
    {
        let content = self.content(number)?;
        Some(content.members.items())
    }

    /// The member of a name, and its number, from 0 on, if the struct's members are set and one of them has it.
    pub fn member(&self, number: u32, name: &Text) -> Option<(u32, &Member)>
        requires { number < length self.now.structs }
        ensures found { option_map (λ found. (found.0, found.1.now)) result ≡ option_and_then (member_named name.now 0) (tables.members_of self.now number) }
        ensures typed { IfSome result (λ found. tables.IsId self.now found.1.now.kind) }
    {
        let content = self.content(number)?;
        content.members.find(name)
    }

    /// What an object of a struct takes, in bytes, if its members are set and it isn't larger than a type may be.
    pub fn layout_of_struct(&self, number: u32) -> Option<Layout>
        requires { number < length self.now.structs }
        ensures { result ≡ option_and_then (λ content. content.layout) (tables.content_of self.now number) }
    {
        self.content(number)?.layout
    }

    /// What stands between the braces of a struct, if that is known.
    pub(crate) fn content(&self, number: u32) -> Option<&Content>
        requires { number < length self.now.structs }
        ensures content { option_copied result ≡ tables.content_of self.now number }
        ensures sound { IfSome result (λ content. sound.IsContent self.now content.now) }
    {
        self.structs[number as usize].content.as_ref()
    }
}
