//! Which functions may be defined (C2, C36), and what is known behind the declarator of a definition (6.9.1).

ghost use Rattle.std.specs.Prelude.{◌≡◌, List, IfOk};
ghost use Rattle.dm_type.specs.declared.shape.Shape.{Shape as OneShape};
ghost use Rattle.dm_type.specs.Tables.{IsId};
ghost use Rattle.dm_syn.specs.Views as syntax;
ghost use Rattle.dm_typing.specs.Views.{Begins, type_over, source_of, setting_of, Grows};
ghost use Rattle.dm_edecl.specs.Declaring as declaring;
ghost use Rattle.dm_edecl.specs.Linkages as linkages;
ghost use Rattle.dm_edecl.specs.Standing as standings;
ghost use Rattle.dm_estanding.specs.Kinds.{HaveKinds};
ghost use Rattle.dm_estanding.specs.Proceeding.{IsLawful, Proceeds};
ghost use Rattle.dm_estanding.specs.Summaries.{storage_seen, entry_over, StandsFor};
ghost use Rattle.dm_edeclaration.specs.Steps.{specified_over, Permits};
ghost use Rattle.dm_eunit.specs.Functions as functions;
ghost use Rattle.dm_eunit.specs.Functions.{definition_broken, NumberFits, number_over};

use dm_edeclaration::declarable::{declarable, name_at};
use dm_edeclaration::mains::fits_main;
use dm_edeclaration::specified::Specification;
use dm_estanding::redeclaring::number_before;
use dm_estanding::storage::{entry_of, has_linkage};
use dm_estanding::{Links, Standing};
use dm_syn::Declarator;
use dm_token::{Memory, Stop};
use dm_tree::Declared;
use dm_type::TypeId;
use dm_typing::{Known, Typer};

/// Whether a function is defined already (6.9p3, p5).
fn is_defined(known: &Known, links: &Links, entry: &Declared) -> bool
    ensures { (later : List OneShape) (before : standings.Standing) → StandsFor later known.now links.now before → IsLawful before
        → result ≡ linkages.is_defined (linkages.number_here before (entry_over later entry.now)) before.linked }
{
    match number_before(known, links, entry) {
        Some(number) => links.is_defined(number),
        None => false,
    }
}

/// Whether a definition may declare an entry: the type that it has from here on. Its declarator begins at a token, and names
/// the function at another.
fn definable(
    typer: &Typer<'_>,
    known: &mut Known,
    links: &Links,
    said: &Specification,
    here: u32,
    name: u32,
    entry: &Declared,
) -> Result<TypeId, Stop>
    requires kind { IsId known.old.types entry.now.kind }
    requires kinds { HaveKinds known.old.types links.now }
    ensures gives { (later : List OneShape) → Begins known.new.types.shapes later → (before : standings.Standing) → StandsFor later known.old links.now before → IsLawful before
        → Permits later (source_of typer.now) result (definition_broken (specified_over later said.now) before here name (entry_over later entry.now)) before (entry_over later entry.now) }
    ensures numbered { IfOk result (IsId known.new.types) }
    ensures grows { Grows known.old known.new }
{
    if is_defined(known, links, entry) {
        return Err(typer.broken(2, name));
    }
    let kind = declarable(typer, known, links, said, false, here, name, entry)?;
    let fits = fits_main(typer, known, entry)?;
    if !fits {
        return Err(typer.broken(36, name));
    }
    Ok(kind)
}

/// The function of a definition with this type: its number.
pub(crate) fn function_declared(
    typer: &Typer<'_>,
    standing: &mut Standing,
    said: &Specification,
    declarator: &Declarator,
    kind: TypeId,
) -> Result<u32, Stop>
    requires { IsId standing.old.known.types kind }
    ensures { Proceeds NumberFits number_over (source_of typer.now) standing.old standing.new result
        (λ later before. functions.function_declared (specified_over later said.now) before (syntax.declarator declarator.now)
        (linkages.entry_of (setting_of typer.now) before.known (storage_seen said.now.storage) (declaring.name_at (syntax.declarator declarator.now)) (type_over later kind))) }
{
    let here = declarator.span.first;
    let at = name_at(declarator);
    let entry = entry_of(typer, &standing.known, said.storage, at, kind)?;
    // Never so: a definition stands in file scope, and is no typedef (6.2.2p3, p5, 6.9.1p4).
    if !has_linkage(entry.linkage) {
        return Err(Stop::from(Memory));
    }
    let seen = definable(
        typer,
        &mut standing.known,
        &standing.links,
        said,
        here,
        at,
        &entry,
    )?;
    let number = standing.function_here(entry, seen)?;
    Ok(number)
}
