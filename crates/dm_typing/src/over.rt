//! Nodes that come from the same syntax as the tree below them.

ghost use Rattle.std.specs.Prelude.{◌≡◌, ℕ, true, ◌&&◌, nat_lt, IfOk};
ghost use Rattle.dm_type.specs.Tables.{Table, type_of};
ghost use Rattle.dm_tree.specs.Trees as label;
ghost use Rattle.dm_tree.specs.TypeNumbers.{are_known};
ghost use Rattle.dm_tree.specs.Views.{view};
ghost use Rattle.dm_typing.specs.Conversions as conversions;

use crate::typer::Typer;
use dm_token::{List, Memory};
use dm_tree::{Core, Form};
use dm_type::TypeId;

impl Typer<'_> {
    /// The value of what an lvalue designates.
    pub fn read(&self, core: Core, kind: TypeId) -> Result<Core, Memory>
        ensures view { IfOk result (λ made. (types : Table) → view types made ≡ conversions.over label.read (type_of types kind) (view types core)) }
        ensures known { IfOk result (λ made. (n : ℕ) → are_known n made ≡ (nat_lt kind n && are_known n core)) }
    {
        let (inner, outer, place) = (core.inner, core.outer, core.place);
        let form = Form::Read(self.boxed(core)?);
        Ok(Core {
            form,
            kind,
            inner,
            outer,
            place,
        })
    }

    /// The pointer to the first element of an array.
    pub fn decayed(&self, core: Core, kind: TypeId) -> Result<Core, Memory>
        ensures view { IfOk result (λ made. (types : Table) → view types made ≡ conversions.over label.decay (type_of types kind) (view types core)) }
        ensures known { IfOk result (λ made. (n : ℕ) → are_known n made ≡ (nat_lt kind n && are_known n core)) }
    {
        let (inner, outer, place) = (core.inner, core.outer, core.place);
        let form = Form::Decay(self.boxed(core)?);
        Ok(Core {
            form,
            kind,
            inner,
            outer,
            place,
        })
    }

    /// A value after a conversion that isn't written.
    pub fn converted(&self, core: Core, kind: TypeId) -> Result<Core, Memory>
        ensures view { IfOk result (λ made. (types : Table) → view types made ≡ conversions.over label.convert (type_of types kind) (view types core)) }
        ensures known { IfOk result (λ made. (n : ℕ) → are_known n made ≡ (nat_lt kind n && (are_known n core && true))) }
    {
        let (inner, outer, place) = (core.inner, core.outer, core.place);
        let form = Form::Convert(self.boxed(core)?, List::new(self.alloc));
        Ok(Core {
            form,
            kind,
            inner,
            outer,
            place,
        })
    }
}
