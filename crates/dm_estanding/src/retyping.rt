//! Entries that have another type from a place on (6.2.7p4).

ghost use Rattle.std.specs.Prelude.{◌≡◌, List as Sequence, OnOk};
ghost use Rattle.dm_type.specs.declared.shape.Shape.{Shape as OneShape};
ghost use Rattle.dm_type.specs.Tables.{IsId};
ghost use Rattle.dm_typing.specs.Views.{type_over, known_over};
ghost use Rattle.dm_edecl.specs.Linkages as linkages;
ghost use Rattle.dm_estanding.specs.Undoing.{KeepsTypes, set_kind, IsWithin};

use crate::redeclaring::kind_at;
use crate::scopes::with_kind;
use crate::standing::{Retyped, Standing};
use dm_token::{List, Memory};
use dm_type::TypeId;
use dm_typing::Known;
use std::alloc::Global;
use std::mem;

impl Standing {
    /// The entry of a number has this type from here on. Behind the innermost scope it has that of before.
    pub fn retype(&mut self, number: u32, kind: TypeId) -> Result<(), Memory>
        requires { IsId self.old.known.types kind }
        ensures known { OnOk result ((later : Sequence OneShape) → known_over later self.new.known ≡ linkages.known_kind number (type_over later kind) (known_over later self.old.known)) }
        ensures within { OnOk result (IsWithin self.old self.new) }
        ensures same { KeepsTypes self.old.known self.new.known }
        ensures links { self.new.links ≡ self.old.links }
    {
        match kind_at(&self.known, number) {
            Some(before) => {
                let change = Retyped {
                    number,
                    kind: before,
                };
                self.retyped.push(change)?;
                let alloc = *self.retyped.allocator();
                set(alloc, &mut self.known, number, kind);
                Ok(())
            }
            None => Ok(()),
        }
    }
}

/// The entry of a number has this type.
fn set(alloc: Global, known: &mut Known, number: u32, kind: TypeId)
    requires { IsId known.old.types kind }
    ensures declared { known.new.declared ≡ set_kind number kind known.old.declared }
    ensures scopes { known.new.scopes ≡ known.old.scopes }
    ensures same { KeepsTypes known.old known.new }
{
    let entries = mem::replace(&mut known.declared, List::new(alloc));
    known.declared = with_kind(entries, number, kind);
}
