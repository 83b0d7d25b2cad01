//! What is known behind the initialiser of an object (6.7.9).

ghost use Rattle.std.specs.Prelude.{◌≡◌, true, List as Sequence, OnOk};
ghost use Rattle.dm_type.specs.declared.shape.Shape.{Shape as OneShape};
ghost use Rattle.dm_type.specs.Tables.{IsId};
ghost use Rattle.dm_tree.specs.Typing as typed;
ghost use Rattle.dm_tree.specs.Units.{Declaration};
ghost use Rattle.dm_typing.specs.Views.{Begins, type_over};
ghost use Rattle.dm_edecl.specs.Standing as standings;
ghost use Rattle.dm_edecl.specs.Linkages as linkages;
ghost use Rattle.dm_estanding.specs.Summaries.{StandsFor, MayBeAdded};
ghost use Rattle.dm_estanding.specs.Undoing.{IsWithin};

use crate::standing::Standing;
use dm_token::{Memory, Text};
use dm_type::TypeId;

impl Standing {
    /// An object of this name is defined, with a type that is complete.
    pub fn object_here(
        &mut self,
        name: &Text,
        linked: bool,
        number: u32,
        kind: TypeId,
    ) -> Result<(), Memory>
        requires { IsId self.old.known.types kind }
        ensures known { OnOk result ((later : Sequence OneShape) → Begins self.new.known.types.shapes later → (before : standings.Standing) → StandsFor later self.old.known self.old.links before
            → (entry : Declaration) → typed.has_linkage entry.linkage ≡ linked
            → (linked ≡ true → MayBeAdded (linkages.known_kind number (type_over later kind) before.known).declared before.linked name.now number (type_over later kind) true)
            → StandsFor later self.new.known self.new.links (linkages.object_here before entry number (type_over later kind))) }
        ensures within { OnOk result (IsWithin self.old self.new) }
        ensures types { Begins self.old.known.types.shapes self.new.known.types.shapes }
    {
        self.retype(number, kind)?;
        if !linked {
            return Ok(());
        }
        self.links.add(&mut self.known, name, number, kind, true)?;
        Ok(())
    }
}
