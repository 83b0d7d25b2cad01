//! Names that mean new entries, or earlier ones again (6.2.2p2, 6.7p3).

ghost use Rattle.std.specs.Prelude.{◌≡◌, ◌<◌, true, false, [], ◌∷◌, ◌++◌, List as Sequence, Some, OnOk, IfOk, length, drop};
ghost use Rattle.dm_type.specs.declared.shape.Shape.{Shape as OneShape};
ghost use Rattle.dm_type.specs.Tables.{IsId};
ghost use Rattle.dm_scope.specs.Scopes as scopes;
ghost use Rattle.dm_typing.specs.Known as meant;
ghost use Rattle.dm_typing.specs.Views.{type_over, known_over};
ghost use Rattle.dm_edecl.specs.Linkages as linkages;
ghost use Rattle.dm_estanding.specs.Summaries.{entry_over};
ghost use Rattle.dm_estanding.specs.Undoing.{KeepsTypes, IsWithin};

use crate::standing::Standing;
use dm_token::{Memory, Text};
use dm_tree::Declared;
use dm_type::TypeId;
use dm_typing::Known;

impl Standing {
    /// A name means an earlier entry from here on, with this type. In a scope that declares the name already it means that
    /// entry there.
    pub fn name_again(&mut self, name: &Text, number: u32, kind: TypeId) -> Result<(), Memory>
        requires kind { IsId self.old.known.types kind }
        requires number { number < length self.old.known.declared }
        ensures known { OnOk result ((later : Sequence OneShape) → (scopes.is_declared self.old.known.scopes name.now ≡ true → scopes.number_of self.old.known.scopes name.now ≡ Some number)
            → known_over later self.new.known ≡ linkages.known_kind number (type_over later kind)
            (record (known_over later self.old.known) { scopes = scopes.declared self.old.known.scopes name.now number })) }
        ensures within { OnOk result (IsWithin self.old self.new) }
        ensures types { self.new.known.types ≡ self.old.known.types }
        ensures links { self.new.links ≡ self.old.links }
    {
        name_entry(&mut self.known, name, number)?;
        self.retype(number, kind)?;
        Ok(())
    }

    /// A new entry, which its name means from here on: its number. More than 4,294,967,295 count as want of memory.
    pub fn name_new(&mut self, entry: Declared) -> Result<u32, Memory>
        requires { IsId self.old.known.types entry.kind }
        ensures known { OnOk result ((later : Sequence OneShape) → scopes.is_declared self.old.known.scopes entry.name ≡ false
            → known_over later self.new.known ≡ meant.declaring (known_over later self.old.known) entry.name (entry_over later entry)) }
        ensures number { IfOk result (λ number. number ≡ length self.old.known.declared) }
        ensures within { OnOk result (IsWithin self.old self.new) }
        ensures types { self.new.known.types ≡ self.old.known.types }
        ensures links { self.new.links ≡ self.old.links }
    {
        let Ok(number) = u32::try_from(self.known.declared.len()) else {
            return Err(Memory);
        };
        let name = entry.name.copy()?;
        add_entry(&mut self.known, &name, number, entry)?;
        Ok(number)
    }
}

/// A name means an earlier entry from here on.
fn name_entry(known: &mut Known, name: &Text, number: u32) -> Result<(), Memory>
    requires { number < length known.old.declared }
    ensures scopes { OnOk result ((scopes.is_declared known.old.scopes name.now ≡ true → scopes.number_of known.old.scopes name.now ≡ Some number)
        → known.new.scopes ≡ scopes.declared known.old.scopes name.now number) }
    ensures outer { OnOk result (drop 1 known.new.scopes ≡ drop 1 known.old.scopes) }
    ensures depth { OnOk result (length known.new.scopes ≡ length known.old.scopes) }
    ensures declared { known.new.declared ≡ known.old.declared }
    ensures same { KeepsTypes known.old known.new }
{
    let _new = known.scopes.declare(name, number)?;
    Ok(())
}

/// One declaration more, which its name means from here on.
fn add_entry(known: &mut Known, name: &Text, number: u32, entry: Declared) -> Result<(), Memory>
    requires kind { IsId known.old.types entry.kind }
    requires number { number ≡ length known.old.declared }
    ensures known { OnOk result ((later : Sequence OneShape) → scopes.is_declared known.old.scopes name.now ≡ false
        → known_over later known.new ≡ meant.declaring (known_over later known.old) name.now (entry_over later entry)) }
    ensures declared { OnOk result (known.new.declared ≡ known.old.declared ++ entry ∷ []) }
    ensures outer { OnOk result (drop 1 known.new.scopes ≡ drop 1 known.old.scopes) }
    ensures depth { OnOk result (length known.new.scopes ≡ length known.old.scopes) }
    ensures same { KeepsTypes known.old known.new }
{
    known.declared.push(entry)?;
    let _new = known.scopes.declare(name, number)?;
    Ok(())
}
