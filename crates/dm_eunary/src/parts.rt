//! The const of parts of objects (6.3.2.1p1).

ghost use Rattle.std.specs.Prelude.{◌≡◌, ◌<◌, false, length, List, All, IfOk, IfSome, OnOk};
ghost use Rattle.dm_type.specs.declared.shape.Shape.{Shape as OneShape};
ghost use Rattle.dm_type.specs.Tables.{type_of, IsId, Has};
ghost use Rattle.dm_typing.specs.Conversions as conversions;
ghost use Rattle.dm_eunary.specs.Parts as parts;
ghost use Rattle.dm_typing.specs.Views.{Begins, table_over};

use dm_token::Memory;
use dm_type::{Member, Shape, TypeId, Types};
use dm_typing::looks::is_const;
use std::alloc::Global;

/// The type of the elements of an array of arrays, and any other type itself.
fn element(types: &Types, id: TypeId) -> TypeId
    requires { IsId types.now id }
    ensures { Has types.now result (conversions.element (type_of types.now id)) }
{
    let mut element = id;
    while let Shape::Array(inner, _) = types.shape(element) {
        element = *inner;
    }
    element
}

/// Whether the elements of an array of arrays are const, or any other type is.
fn has_const_elements(types: &Types, id: TypeId) -> bool
    requires { IsId types.now id }
    ensures { result ≡ parts.has_const_elements (type_of types.now id) }
{
    is_const(types, element(types, id))
}

/// The struct of the elements of an array of arrays, or of an object.
fn struct_inside(types: &Types, id: TypeId) -> Option<u32>
    requires { IsId types.now id }
    ensures inside { result ≡ parts.struct_inside (type_of types.now id) }
    ensures known { parts.HasKnownStruct types.now id }
{
    match types.shape(element(types, id)) {
        Shape::Struct(number) => Some(*number),
        _ => None,
    }
}

/// Whether a member has const elements, or is const.
fn has_const_member(types: &Types, members: &[Member]) -> bool
    requires { All (λ member. IsId types.now member.kind) members.now }
    ensures { result ≡ conversions.any_member parts.has_const_elements types.now members.now }
{
    for member in members {
        if has_const_elements(types, member.kind) {
            return true;
        }
    }
    false
}

/// The structs inside a type so far, by number.
#[derive(Drop)]
struct Search {
    /// Whether each struct has been seen.
    seen: Vec<bool>,
    /// Those that have been seen, and not been looked at.
    left: Vec<u32>,
}

impl Search {
    /// The struct inside a type is seen, if there is one, and no other.
    fn new(alloc: Global, types: &Types, id: TypeId) -> Result<Search, Memory>
        requires { IsId types.now id }
        ensures begun { IfOk result (λ search. parts.stage_of search ≡ parts.first_stage types.now (type_of types.now id)) }
        ensures known { OnOk result (parts.HasKnownStruct types.now id) }
    {
        let mut search = Search {
            seen: Vec::from_elem(alloc, false, types.struct_count())?,
            left: Vec::new(alloc),
        };
        search.note_inside(types, id)?;
        Ok(search)
    }

    /// A struct is seen, and is to be looked at unless it was seen before.
    fn note(&mut self, number: u32) -> Result<(), Memory>
        requires { number < length self.old.seen.items }
        ensures { OnOk result (parts.stage_of self.new ≡ parts.noted (parts.stage_of self.old) number) }
    {
        if self.seen[number as usize] {
            return Ok(());
        }
        self.left.push(number)?;
        self.seen[number as usize] = true;
        Ok(())
    }

    /// The struct inside a type, if there is one.
    fn note_inside(&mut self, types: &Types, id: TypeId) -> Result<(), Memory>
        requires id { IsId types.now id }
        requires size { length self.old.seen.items ≡ length types.now.structs }
        ensures noted { OnOk result (parts.stage_of self.new ≡ parts.noted_inside (parts.stage_of self.old) (parts.struct_inside (type_of types.now id))) }
        ensures size { OnOk result (length self.new.seen.items ≡ length types.now.structs) }
        ensures known { parts.HasKnownStruct types.now id }
    {
        match struct_inside(types, id) {
            Some(number) => self.note(number),
            None => Ok(()),
        }
    }

    /// The structs inside members.
    fn note_members(&mut self, types: &Types, members: &[Member]) -> Result<(), Memory>
        requires members { All (λ member. IsId types.now member.kind) members.now }
        requires size { length self.old.seen.items ≡ length types.now.structs }
        ensures noted { OnOk result (parts.stage_of self.new ≡ parts.all_noted types.now (parts.stage_of self.old) members.now) }
        ensures known { OnOk result (All (λ member. parts.HasKnownStruct types.now member.kind) members.now) }
    {
        for member in members {
            self.note_inside(types, member.kind)?;
        }
        Ok(())
    }
}

/// Whether a type is const, or a part of its objects is, at any depth (6.3.2.1p1). Each struct is looked at once.
pub(crate) fn has_const(alloc: Global, types: &Types, id: TypeId) -> Result<bool, Memory>
    requires { IsId types.now id }
    ensures { IfOk result (λ has. (later : List OneShape) → Begins types.now.shapes later → has ≡ conversions.has_const (table_over later types.now) (type_of types.now id)) }
{
    if has_const_elements(types, id) {
        return Ok(true);
    }
    let mut search = Search::new(alloc, types, id)?;
    while let Some(number) = search.left.pop() {
        let Some(members) = types.members(number) else {
            continue;
        };
        if has_const_member(types, members) {
            return Ok(true);
        }
        search.note_members(types, members)?;
    }
    Ok(false)
}
