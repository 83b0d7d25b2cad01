//! The macros that are defined at a point of a translation unit.

ghost use Rattle.std.specs.Prelude.{◌≡◌, ◌+◌, ◌<◌, [], length, slice_get, is_some, Some, IfOk, IfErr, IfSome, OnOk, OnErr, MatchBool};
ghost use Rattle.std.specs.FinMap as finite;
ghost use Rattle.dm_macro.specs.Roles.{AreRoles};

use crate::body::Body;
use crate::form::{read_definition, refused};
use crate::hash::bare_hash;
use crate::role::{Roles, roles_of};
use crate::same::are_same;
use dm_name_map::NameMap;
use dm_token::{Definition, Memory, Origin, PpToken, Stop, Text, refusals};
use std::alloc::Global;
use std::marker::Model;

/// The macro definitions read so far, and those that are in force. Contracts see it as the list of definitions read and
/// a finite map from names to positions in it.
#[derive(Drop)]
pub struct MacroTable {
    read: Vec<Definition>,
    /// What is kept of their replacement lists.
    roles: Vec<Roles>,
    names: NameMap,
}

impl Model for MacroTable {
    ghost use Rattle.dm_macro.specs.Tables.{Table, table_code, table_of, IsSound};

    ghost Value = { Table };

    ghost coded = { table_code };

    ghost view = { λ table. table_of table.read.items table.names };

    ghost use Rattle.dm_macro.specs.Roles.{AreAllRoles};

    ghost invariant = { λ table. IsSound (table_of table.read.items table.names) × AreAllRoles table.read.items table.roles.items };
}

impl MacroTable {
    ghost use Rattle.dm_macro.specs.Tables as tables;

    /// The table before anything is read.
    pub fn new(alloc: Global) -> Result<MacroTable, Memory>
        ensures { IfOk result (λ table. table ≡ tables.table_of [] finite.empty) }
    {
        Ok(MacroTable {
            read: Vec::new(alloc),
            roles: Vec::new(alloc),
            names: NameMap::new(alloc),
        })
    }

    /// Reads the tokens of a `define` directive from its `#` on, and gives the position of its definition. A name that
    /// is already defined keeps its first definition. The refusals are 5, 11 and 12, in this order.
    pub fn define(
        &mut self,
        line: &[PpToken],
        origin: Origin,
        head_plain: bool,
    ) -> Result<u32, Stop>
        requires line { 0 < length line.now }
        requires room { length self.old.read < 4294967295 }
        ensures number { IfOk result (λ number. number ≡ length self.old.read) }
        ensures defined { OnOk result (tables.Defines self.old line.now origin head_plain self.new) }
        ensures refused { IfErr result (λ stop. tables.Refuses self.old line.now origin head_plain stop) }
        ensures unchanged { OnErr result (self.new ≡ self.old) }
    {
        let alloc = *self.read.allocator();
        let definition = read_definition(alloc, line, origin, head_plain)?;
        if let Some(place) = bare_hash(alloc, &definition)? {
            return Err(refused(refusals::HASH_OPERAND, place));
        }
        if self.gives_another_meaning(&definition) {
            return Err(refused(refusals::REDEFINITION, definition.place));
        }
        let roles = roles_of(alloc, &definition)?;
        let number = self.record(definition, roles)?;
        Ok(number)
    }

    /// Whether the definition's name is already defined as another macro.
    fn gives_another_meaning(&self, definition: &Definition) -> bool
        ensures { MatchBool result (tables.ChangesMeaning self.now definition.now) (tables.KeepsMeaning self.now definition.now) }
    {
        match self.get(&definition.name) {
            Some(number) => !are_same(self.definition(number), definition),
            None => false,
        }
    }

    /// Adds the definition with what is kept of its replacement list, and gives its position.
    fn record(&mut self, definition: Definition, roles: Roles) -> Result<u32, Memory>
        requires room { length self.old.read < 4294967295 }
        requires roles { AreRoles definition roles }
        ensures number { IfOk result (λ number. number ≡ length self.old.read) }
        ensures recorded { OnOk result (self.new ≡ tables.recorded self.old definition) }
        ensures unchanged { OnErr result (self.new ≡ self.old) }
    {
        let number = self.read.len() as u32;
        self.read.reserve(1)?;
        self.roles.reserve(1)?;
        if self.names.get(&definition.name).is_none() {
            self.names.insert(definition.name.copy()?, number)?;
        }
        self.read.push_reserved(definition);
        self.roles.push_reserved(roles);
        Ok(number)
    }

    /// Undefines the name (6.10.3.5p2). True where it was defined.
    pub fn undefine(&mut self, name: &Text) -> bool
        ensures was { result ≡ is_some (tables.number_of self.old name.now) }
        ensures undefined { self.new ≡ tables.undefined self.old name.now }
    {
        self.names.remove(name)
    }

    /// The position of the definition that the name has now.
    pub fn get(&self, name: &Text) -> Option<u32>
        ensures number { result ≡ tables.number_of self.now name.now }
        ensures sound { tables.IsSound self.now }
    {
        self.names.get(name)
    }

    /// The definition at a position.
    pub fn definition(&self, number: u32) -> &Definition
        requires { number < length self.now.read }
        ensures { slice_get self.now.read number ≡ Some result.now }
    {
        &self.read[number as usize]
    }

    /// The definition at a position, with what the tokens of its replacement list are.
    pub fn body(&self, number: u32) -> Body<'_>
        requires { number < length self.now.read }
        ensures { slice_get self.now.read number ≡ Some result.definition.now }
    {
        let index = number as usize;
        Body::new(&self.read[index], &self.roles[index])
    }

    /// The definitions read so far.
    pub fn definitions(&self) -> &[Definition]
        ensures { result.now ≡ self.now.read }
    {
        self.read.as_slice()
    }
}
