//! The typing of a whole translation unit (6.9).

ghost use Rattle.std.specs.Prelude.{◌≡◌, ℕ, IsTrue, List as Sequence, [], length, map, IfOk, IfErr};
ghost use Rattle.std.specs.List.{list_all};
ghost use Rattle.dm_type.specs.declared.shape.Shape.{Shape as OneShape};
ghost use Rattle.dm_syn.specs.Views as syntax;
ghost use Rattle.dm_type.specs.Tables.{Has};
ghost use Rattle.dm_tree.specs.TypeNumbers.{IsTypedUnit, argv_kind, entry_has_known};
ghost use Rattle.dm_tree.specs.Units.{Declaration as Entry};
ghost use Rattle.dm_typing.specs.Sound.{AreSoundTokens};
ghost use Rattle.dm_typing.specs.Views.{source_of, setting_of, Grows};
ghost use Rattle.dm_edecl.specs.Linkages as linkages;
ghost use Rattle.dm_edecl.specs.Placing.{externals_after, AreExternals};
ghost use Rattle.dm_edecl.specs.Standing.{Linked};
ghost use Rattle.dm_edecl.specs.Units as units;
ghost use Rattle.dm_eexpr.specs.Alone.{source_alone, RefusesWithin};
ghost use Rattle.dm_estanding.specs.Summaries.{entry_over, Summarises, StandsFor};
ghost use Rattle.dm_reading.specs.Elaborated.{ElaboratesBy, Elaborates, IsNumberedUnit};
ghost use Rattle.dm_eunit.specs.Elaborated.{typed_by};
ghost use Rattle.dm_eunit.specs.Functions.{ExternalsFit};

use crate::externals::typed_externals;
use crate::lacking::lacking;
use dm_estanding::{Links, Standing, with_whole_kinds};
use dm_int::Kind;
use dm_scope::Scopes;
use dm_syn::External;
use dm_token::{CToken, List, Memory, Stop};
use dm_tree::{CoreExternal, CoreUnit};
use dm_type::{Shape, TypeId, Types};
use dm_typing::{Known, Typer};
use std::alloc::Global;

/// The typed unit of external declarations that are those of the tokens, and its types. What is given is exactly what the
/// typing of units says. Its time is linear, but for the comparison of types.
///
/// # Errors
///
/// Refusal 17, with the number of the first typing rule that is broken, at its place.
pub fn elaborate(
    alloc: Global,
    tokens: &[CToken],
    externals: &[External],
) -> Result<(CoreUnit, Types), Stop>
    ensures unit { Elaborates tokens.now (map syntax.external externals.now) result }
    ensures well_typed { AreSoundTokens tokens.now → AreExternals (source_alone tokens.now) [] 0 (map syntax.external externals.now)
        → IfOk result (λ made. IsTypedUnit made.1 made.0) }
    ensures inside { AreExternals (source_alone tokens.now) [] 0 (map syntax.external externals.now)
        → IfErr result (RefusesWithin (source_alone tokens.now) (record { first = 0; after = externals_after 0 (map syntax.external externals.now) })) }
    ensures numbered { IfOk result (λ made. IsNumberedUnit made.1 made.0) }
{
    let none = Scopes::new(alloc)?;
    let reader = Typer {
        alloc,
        tokens,
        lacking: &none,
    };
    let names = lacking(&reader, externals)?;
    let typer = Typer {
        alloc,
        tokens,
        lacking: &names,
    };
    unit_of(&typer, externals)
}

/// The same where it is known which functions the unit doesn't define.
fn unit_of(typer: &Typer<'_>, externals: &[External]) -> Result<(CoreUnit, Types), Stop>
    ensures unit { ElaboratesBy (source_of typer.now) (λ later. typed_by (setting_of typer.now) later (map syntax.external externals.now)) result }
    ensures numbered { IfOk result (λ made. IsNumberedUnit made.1 made.0) }
{
    let mut standing = beginning(typer)?;
    let argv = argv_of(&mut standing)?;
    let made = typed_externals(typer, &mut standing, externals)?;
    let unit = finished(standing, argv, made)?;
    Ok(unit)
}

/// Where a unit begins: nothing is declared.
fn beginning(typer: &Typer<'_>) -> Result<Standing, Memory>
    ensures { IfOk result (λ standing. (later : Sequence OneShape) → StandsFor later standing.known standing.links (units.beginning later)) }
{
    let alloc = typer.alloc;
    let types = Types::new(alloc)?;
    let scopes = Scopes::new(alloc)?;
    let links = Links::new(alloc)?;
    let known = Known {
        types,
        scopes,
        declared: List::new(alloc),
        begun: Vec::new(alloc),
        constants: List::new(alloc),
    };
    Ok(Standing {
        known,
        links,
        retyped: Vec::new(alloc),
    })
}

/// The number of the type of the object to which `argv` points at the beginning of a run (5.1.2.2.1p2).
fn argv_of(standing: &mut Standing) -> Result<TypeId, Memory>
    ensures typed { IfOk result (λ id. Has standing.new.known.types id argv_kind) }
    ensures grows { Grows standing.old.known standing.new.known }
    ensures links { standing.new.links ≡ standing.old.links }
{
    let kind = argv_type(&mut standing.known)?;
    Ok(kind)
}

/// The same where it is told which types have numbers.
fn argv_type(known: &mut Known) -> Result<TypeId, Memory>
    ensures typed { IfOk result (λ id. Has known.new.types id argv_kind) }
    ensures grows { Grows known.old known.new }
{
    let plain = known.intern(Shape::Integer(Kind::Char))?;
    let pointer = known.intern(Shape::Pointer(plain))?;
    let array = known.intern(Shape::Array(pointer, Some(1)))?;
    Ok(array)
}

/// The unit of these external declarations, with the types that all declarations of its entries say.
fn finished(
    standing: Standing,
    argv: TypeId,
    externals: List<CoreExternal>,
) -> Result<(CoreUnit, Types), Memory>
    ensures whole { IfOk result (λ made. (later : Sequence OneShape) (declared : Sequence Entry) (linked : Sequence Linked) → Summarises later standing.links declared linked
        → map (entry_over later) made.0.declared ≡ linkages.with_whole_kinds linked 0 (map (entry_over later) standing.known.declared)) }
    ensures argv { IfOk result (λ made. made.0.argv ≡ argv) }
    ensures externals { IfOk result (λ made. made.0.externals ≡ externals) }
    ensures types { IfOk result (λ made. made.1 ≡ standing.known.types) }
    ensures numbered { IfOk result (λ made. IsTrue (list_all (entry_has_known (length standing.known.types.shapes)) made.0.declared)) }
{
    let Standing {
        known,
        links,
        retyped: _,
    } = standing;
    let Known {
        types,
        scopes: _,
        declared,
        begun: _,
        constants: _,
    } = known;
    let declared = with_whole_kinds(declared, &links)?;
    let unit = CoreUnit {
        argv,
        declared,
        externals,
    };
    Ok((unit, types))
}
