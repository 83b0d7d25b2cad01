//! The scope of a function definition's parameters, which opens again at the body (6.2.1p4).

ghost use Rattle.std.specs.Prelude.{◌≡◌, ◌<◌, true, false, ◌∷◌, List as Sequence, Some, slice_get, length, IfOk, OnOk, ℕ};
ghost use Rattle.std.specs.FinMap as finite;
ghost use Rattle.dm_type.specs.declared.shape.Shape.{Shape as OneShape};
ghost use Rattle.dm_scope.specs.Scopes.{Scopes as Seen};
ghost use Rattle.dm_name_map.specs.Numbers.{Numbers};
ghost use Rattle.dm_tree.specs.Typing as typed;
ghost use Rattle.dm_tree.specs.Units.{Declaration};
ghost use Rattle.dm_edeclarator.specs.Steps.{SameBesideScopes};
ghost use Rattle.dm_edecl.specs.Standing as standings;
ghost use Rattle.dm_estanding.specs.Summaries.{StandsFor};
ghost use Rattle.dm_estanding.specs.Undoing.{Opens};
ghost use Rattle.dm_eunit.specs.Naming.{with_name, with_names};
ghost use Rattle.dm_eunit.specs.Reopening.{is_unlinked, AreUnlinked};

use crate::naming::Numbered;
use dm_estanding::storage::has_linkage;
use dm_estanding::{Mark, Standing};
use dm_token::Memory;
use dm_typing::Known;

/// Opens a scope in which these names are declared.
pub(crate) fn reopened(standing: &mut Standing, names: &[Numbered]) -> Result<Mark, Memory>
    ensures opened { OnOk result ((later : Sequence OneShape) (before : standings.Standing) → StandsFor later standing.old.known standing.old.links before
        → StandsFor later standing.new.known standing.new.links (standings.opened (with_names finite.empty names.now) before)) }
    ensures opens { OnOk result (Opens standing.old standing.new) }
    ensures outside { OnOk result (0 < length standing.old.known.scopes) }
    ensures declared { IfOk result (λ mark. mark.declared ≡ length standing.new.known.declared) }
    ensures retyped { IfOk result (λ mark. mark.retyped ≡ length standing.new.retyped.items) }
    ensures scopes { OnOk result (standing.new.known.scopes ≡ with_names finite.empty names.now ∷ standing.old.known.scopes) }
    ensures unlinked { OnOk result (AreUnlinked standing.old.known.declared names.now) }
    ensures types { standing.new.known.types ≡ standing.old.known.types }
{
    let mark = standing.open()?;
    declare_again(&mut standing.known, names)?;
    Ok(mark)
}

/// The innermost scope declares these names too.
fn declare_again(known: &mut Known, names: &[Numbered]) -> Result<(), Memory>
    ensures scopes { OnOk result ((scope : Numbers) (outer : Seen) → known.old.scopes ≡ scope ∷ outer → known.new.scopes ≡ with_names scope names.now ∷ outer) }
    ensures rest { SameBesideScopes known.old known.new }
    ensures unlinked { OnOk result (AreUnlinked known.old.declared names.now) }
{
    for one in names {
        declare_one(known, one)?;
    }
    Ok(())
}

/// The innermost scope declares a name, unless it does so already.
fn declare_one(known: &mut Known, one: &Numbered) -> Result<(), Memory>
    ensures scopes { OnOk result ((scope : Numbers) (outer : Seen) → known.old.scopes ≡ scope ∷ outer → known.new.scopes ≡ with_name scope one.now ∷ outer) }
    ensures rest { SameBesideScopes known.old known.new }
    ensures unlinked { OnOk result (is_unlinked (slice_get known.old.declared one.now.number) ≡ true) }
{
    // Never so: what parameters declare has no linkage (6.2.2p6).
    if !is_unlinked(known, one.number) {
        return Err(Memory);
    }
    let _new = known.scopes.declare(&one.name, one.number)?;
    Ok(())
}

/// Whether the entry of a number is there, and has no linkage.
fn is_unlinked(known: &Known, number: u32) -> bool
    ensures { result ≡ is_unlinked (slice_get known.now.declared number) }
{
    match known.declared.items().get(number as usize) {
        Some(entry) => !has_linkage(entry.linkage),
        None => false,
    }
}
