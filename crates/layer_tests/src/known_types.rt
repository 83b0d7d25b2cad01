//! Types that keep the numbers that they give, so that a test can ask whether a number is one of theirs.

ghost use Rattle.std.specs.Prelude.{◌≡◌, ◌≢◌, ◌<◌, [], None, All, IsTrue, length, option_copied};
ghost use Rattle.dm_type.specs.Alike as alike;
ghost use Rattle.dm_type.specs.Layouts as layouts;
ghost use Rattle.dm_type.specs.Tables as tables;

use dm_token::{Memory, Text};
use dm_type::{Member, Members, Shape, TypeId, Types};
use std::alloc::Global;
use std::marker::Model;

/// Types, and all numbers that they have given. Contracts see the table of the types.
#[derive(Drop)]
pub struct KnownTypes {
    types: Types,
    given: Vec<TypeId>,
}

impl Model for KnownTypes {
    ghost use Rattle.std.specs.Prelude.{All};
    ghost use Rattle.dm_type.specs.Tables.{Table, IsId};

    ghost Value = { Table };

    ghost view = { λ known. known.types };

    ghost invariant = { λ known. All (IsId known.types) known.given.items };
}

impl KnownTypes {
    /// The table of no type.
    pub fn new(alloc: Global) -> Result<KnownTypes, Memory> {
        let types = Types::new(alloc)?;
        Ok(KnownTypes {
            types,
            given: Vec::new(alloc),
        })
    }

    /// Whether the types have given this number.
    pub fn knows(&self, id: TypeId) -> bool
        ensures { IsTrue result → tables.IsId self.now id }
    {
        let mut given = self.given.as_slice();
        while let Some((last, earlier)) = given.split_last() {
            if *last == id {
                return true;
            }
            given = earlier;
        }
        false
    }

    /// How many structs there are.
    pub fn struct_count(&self) -> usize
        ensures { result ≡ length self.now.structs }
    {
        self.types.struct_count()
    }

    /// The size of a type.
    pub fn size(&self, id: TypeId) -> Option<u64>
        requires { tables.IsId self.now id }
        ensures { result ≡ layouts.size_of self.now (tables.type_of self.now id) }
    {
        self.types.size(id)
    }

    /// The alignment of a type.
    pub fn alignment(&self, id: TypeId) -> Option<u64>
        requires { tables.IsId self.now id }
        ensures { result ≡ layouts.alignment_of self.now (tables.type_of self.now id) }
    {
        self.types.alignment(id)
    }

    /// Whether two types are compatible.
    pub fn compatible(&self, a: TypeId, b: TypeId) -> bool
        requires left { tables.IsId self.now a }
        requires right { tables.IsId self.now b }
        ensures { result ≡ alike.are_compatible (tables.type_of self.now a) (tables.type_of self.now b) }
    {
        self.types.compatible(a, b)
    }

    /// The spelling of a type round a declarator, where these structs are visible.
    pub fn spell(
        &self,
        id: TypeId,
        declarator: &Text,
        visible: &[u32],
    ) -> Result<Option<Text>, Memory>
        requires { tables.IsId self.now id }
    {
        self.types.spell(id, declarator, visible)
    }

    /// The tag of a struct.
    pub fn tag(&self, number: u32) -> Option<&Text>
        requires { number < length self.now.structs }
        ensures { option_copied result ≡ tables.tag_of self.now number }
    {
        self.types.tag(number)
    }

    /// The members of a struct.
    pub fn members(&self, number: u32) -> Option<&[Member]>
        requires { number < length self.now.structs }
        ensures { option_copied result ≡ tables.members_of self.now number }
    {
        self.types.members(number)
    }

    /// The member of a struct that has a name.
    pub fn member(&self, number: u32, name: &Text) -> Option<(u32, &Member)>
        requires { number < length self.now.structs }
    {
        self.types.member(number, name)
    }

    /// The number of a type.
    pub fn intern(&mut self, shape: Shape) -> Result<TypeId, Memory>
        requires { tables.IsShape self.old shape }
    {
        self.given.reserve(1)?;
        let id = self.types.intern(shape)?;
        self.given.push_reserved(id);
        Ok(id)
    }

    /// The composite type of two compatible types.
    pub fn composite(&mut self, a: TypeId, b: TypeId) -> Result<TypeId, Memory>
        requires left { tables.IsId self.old a }
        requires right { tables.IsId self.old b }
        requires compatible { IsTrue (alike.are_compatible (tables.type_of self.old a) (tables.type_of self.old b)) }
    {
        self.given.reserve(1)?;
        let id = self.types.composite(a, b)?;
        self.given.push_reserved(id);
        Ok(id)
    }

    /// A struct without members.
    pub fn new_struct(&mut self, tag: Option<Text>) -> Result<u32, Memory>
        requires { length self.old.structs < 4294967295 }
    {
        self.types.new_struct(tag)
    }

    /// Gives a struct its members.
    pub fn set_members(&mut self, number: u32, members: Members) -> Result<(), Memory>
        requires number { number < length self.old.structs }
        requires unset { tables.members_of self.old number ≡ None }
        requires some { members ≢ [] }
        requires types { All (λ member. tables.IsId self.old member.kind) members }
    {
        self.types.set_members(number, members)
    }
}
