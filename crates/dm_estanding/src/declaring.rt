//! What is known behind a declarator (6.7) and behind that of a function definition (6.9.1).

ghost use Rattle.std.specs.Prelude.{◌≡◌, true, List as Sequence, OnOk, IfOk};
ghost use Rattle.dm_type.specs.declared.shape.Shape.{Shape as OneShape};
ghost use Rattle.dm_type.specs.Tables.{IsId};
ghost use Rattle.dm_tree.specs.Typing as typed;
ghost use Rattle.dm_typing.specs.Views.{Begins, type_over, known_over};
ghost use Rattle.dm_edecl.specs.Standing as standings;
ghost use Rattle.dm_edecl.specs.Linkages as linkages;
ghost use Rattle.dm_estanding.specs.Proceeding.{IsLawful};
ghost use Rattle.dm_estanding.specs.Summaries.{entry_over, StandsFor, declared_as};
ghost use Rattle.dm_estanding.specs.Undoing.{IsWithin};

use crate::redeclaring::number_before;
use crate::standing::Standing;
use crate::storage::has_linkage;
use dm_token::Memory;
use dm_tree::Declared;
use dm_type::TypeId;

impl Standing {
    /// An entry is declared, by no function definition: its number. The type is the one that it has from here on.
    pub fn declared_here(&mut self, entry: Declared, kind: TypeId) -> Result<u32, Memory>
        requires own { IsId self.old.known.types entry.kind }
        requires kind { IsId self.old.known.types kind }
        ensures known { OnOk result ((later : Sequence OneShape) → Begins self.new.known.types.shapes later → (before : standings.Standing) → StandsFor later self.old.known self.old.links before
            → IsLawful before → linkages.may_be_declared before (entry_over later entry) ≡ true → type_over later kind ≡ linkages.kind_seen before (entry_over later entry)
            → StandsFor later self.new.known self.new.links (linkages.declared_here before (entry_over later entry))) }
        ensures number { IfOk result (λ number. (later : Sequence OneShape) (before : standings.Standing) → StandsFor later self.old.known self.old.links before
            → IsLawful before → number ≡ linkages.number_here before (entry_over later entry)) }
        ensures within { OnOk result (IsWithin self.old self.new) }
        ensures types { Begins self.old.known.types.shapes self.new.known.types.shapes }
    {
        self.declared_as(entry, kind, false)
    }

    /// The same by the declarator of a function definition; a function has linkage (6.2.2p3, p5).
    pub fn function_here(&mut self, entry: Declared, kind: TypeId) -> Result<u32, Memory>
        requires own { IsId self.old.known.types entry.kind }
        requires kind { IsId self.old.known.types kind }
        ensures known { OnOk result ((later : Sequence OneShape) → Begins self.new.known.types.shapes later → (before : standings.Standing) → StandsFor later self.old.known self.old.links before
            → IsLawful before → typed.has_linkage entry.linkage ≡ true
            → linkages.may_be_declared before (entry_over later entry) ≡ true → type_over later kind ≡ linkages.kind_seen before (entry_over later entry)
            → StandsFor later self.new.known self.new.links (linkages.function_here before (entry_over later entry))) }
        ensures number { IfOk result (λ number. (later : Sequence OneShape) (before : standings.Standing) → StandsFor later self.old.known self.old.links before
            → IsLawful before → number ≡ linkages.number_here before (entry_over later entry)) }
        ensures within { OnOk result (IsWithin self.old self.new) }
        ensures types { Begins self.old.known.types.shapes self.new.known.types.shapes }
    {
        self.declared_as(entry, kind, true)
    }

    /// A declaration more of an entry, which its name means from here on.
    fn declared_as(&mut self, entry: Declared, kind: TypeId, defines: bool) -> Result<u32, Memory>
        requires own { IsId self.old.known.types entry.kind }
        requires kind { IsId self.old.known.types kind }
        ensures known { OnOk result ((later : Sequence OneShape) → Begins self.new.known.types.shapes later → (before : standings.Standing) → StandsFor later self.old.known self.old.links before
            → IsLawful before → linkages.may_be_declared before (entry_over later entry) ≡ true → type_over later kind ≡ linkages.kind_seen before (entry_over later entry)
            → StandsFor later self.new.known self.new.links (declared_as before (entry_over later entry) defines)) }
        ensures number { IfOk result (λ number. (later : Sequence OneShape) (before : standings.Standing) → StandsFor later self.old.known self.old.links before
            → IsLawful before → number ≡ linkages.number_here before (entry_over later entry)) }
        ensures within { OnOk result (IsWithin self.old self.new) }
        ensures types { Begins self.old.known.types.shapes self.new.known.types.shapes }
    {
        let linked = has_linkage(entry.linkage);
        let own = entry.kind;
        let name = entry.name.copy()?;
        let number = self.named(entry, kind)?;
        if !linked {
            return Ok(number);
        }
        self.links
            .add(&mut self.known, &name, number, own, defines)?;
        Ok(number)
    }

    /// The name of an entry means it from here on: an earlier one, or a new one. An earlier one is there.
    fn named(&mut self, entry: Declared, kind: TypeId) -> Result<u32, Memory>
        requires own { IsId self.old.known.types entry.kind }
        requires kind { IsId self.old.known.types kind }
        ensures known { OnOk result ((later : Sequence OneShape) (before : standings.Standing) → StandsFor later self.old.known self.old.links before
            → IsLawful before → linkages.may_be_declared before (entry_over later entry) ≡ true → type_over later kind ≡ linkages.kind_seen before (entry_over later entry)
            → known_over later self.new.known ≡ linkages.named_here before (entry_over later entry)) }
        ensures number { IfOk result (λ number. (later : Sequence OneShape) (before : standings.Standing) → StandsFor later self.old.known self.old.links before
            → IsLawful before → number ≡ linkages.number_here before (entry_over later entry)) }
        ensures within { OnOk result (IsWithin self.old self.new) }
        ensures types { self.new.known.types ≡ self.old.known.types }
        ensures links { OnOk result (self.new.links ≡ self.old.links) }
    {
        match number_before(&self.known, &self.links, &entry) {
            Some(number) if (number as usize) < self.known.declared.len() => {
                self.name_again(&entry.name, number, kind)?;
                Ok(number)
            }
            _ => {
                let number = self.name_new(entry)?;
                Ok(number)
            }
        }
    }
}
