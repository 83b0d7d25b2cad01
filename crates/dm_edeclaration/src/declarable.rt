//! What may be declared (C2, C3, C5, C36).

ghost use Rattle.std.specs.Prelude.{◌≡◌, List, IfOk};
ghost use Rattle.dm_type.specs.declared.shape.Shape.{Shape as OneShape};
ghost use Rattle.dm_type.specs.Tables.{IsId};
ghost use Rattle.dm_syn.specs.Views as syntax;
ghost use Rattle.dm_typing.specs.Views.{Begins, type_over, known_over, source_of, Grows};
ghost use Rattle.dm_edecl.specs.Declaring as declaring;
ghost use Rattle.dm_edecl.specs.Linkages as linkages;
ghost use Rattle.dm_edecl.specs.Standing as standings;
ghost use Rattle.dm_estanding.specs.Kinds.{HaveKinds};
ghost use Rattle.dm_estanding.specs.Proceeding.{IsLawful};
ghost use Rattle.dm_estanding.specs.Summaries.{storage_seen, entry_over, StandsFor};
ghost use Rattle.dm_edeclaration.specs.Steps.{specified_over, rule_broken, Permits};

use crate::mains::may_be_main;
use crate::specified::Specification;
use dm_estanding::Links;
use dm_estanding::redeclaring::{is_object, kind_seen, may_be_declared};
use dm_estanding::storage::{Storage, is_file_scope};
use dm_syn::{Declarator, declarator_name};
use dm_token::Stop;
use dm_tree::{Declared, Sort};
use dm_type::TypeId;
use dm_typing::looks::{is_array, is_complete};
use dm_typing::{Known, Typer};

/// The token of the declared name.
pub fn name_at(declarator: &Declarator) -> u32
    ensures { result ≡ declaring.name_at (syntax.declarator declarator.now) }
{
    match declarator_name(declarator) {
        Some(at) => at,
        None => declarator.span.first,
    }
}

/// Whether it is `extern`.
fn is_extern(storage: Storage) -> bool
    ensures { result ≡ linkages.is_extern (storage_seen storage) }
{
    matches!(storage, Storage::Extern)
}

/// Whether a function in a block is `static` (6.7.1p7).
fn is_misplaced_static(known: &Known, storage: Storage, sort: Sort) -> bool
    ensures { (later : List OneShape) → result ≡ declaring.is_misplaced_static (known_over later known.now) (storage_seen storage) sort }
{
    match (sort, storage) {
        (Sort::Function, Storage::Static) => !is_file_scope(known),
        _ => false,
    }
}

/// Whether an object with this type may be declared: it is complete, unless it is declared `extern` and isn't initialised, or
/// an array that its initialiser completes (6.7p7, 6.7.9p22).
fn may_be_object(
    known: &Known,
    storage: Storage,
    initialised: bool,
    sort: Sort,
    kind: TypeId,
) -> bool
    requires { IsId known.now.types kind }
    ensures { (later : List OneShape) → Begins known.now.types.shapes later
        → result ≡ declaring.may_be_object (known_over later known.now) (storage_seen storage) initialised sort (type_over later kind) }
{
    if !is_object(sort) {
        return true;
    }
    if is_extern(storage) && !initialised {
        return true;
    }
    is_complete_or_array(known, initialised, kind)
}

/// Whether the type is complete, or that of an array that is initialised.
fn is_complete_or_array(known: &Known, initialised: bool, kind: TypeId) -> bool
    requires { IsId known.now.types kind }
    ensures { (later : List OneShape) → Begins known.now.types.shapes later
        → result ≡ declaring.is_complete_or_array (known_over later known.now) initialised (type_over later kind) }
{
    if is_complete(known, kind) {
        return true;
    }
    initialised && is_array(&known.types, kind)
}

/// Whether a declarator may declare an entry: the type that it has from here on. The declarator begins at a token, and names
/// its entity at another.
pub fn declarable(
    typer: &Typer<'_>,
    known: &mut Known,
    links: &Links,
    said: &Specification,
    initialised: bool,
    here: u32,
    name: u32,
    entry: &Declared,
) -> Result<TypeId, Stop>
    requires kind { IsId known.old.types entry.now.kind }
    requires kinds { HaveKinds known.old.types links.now }
    ensures gives { (later : List OneShape) → Begins known.new.types.shapes later → (before : standings.Standing) → StandsFor later known.old links.now before → IsLawful before
        → Permits later (source_of typer.now) result (rule_broken (specified_over later said.now) before initialised here name (entry_over later entry.now)) before (entry_over later entry.now) }
    ensures numbered { IfOk result (IsId known.new.types) }
    ensures grows { Grows known.old known.new }
{
    if !may_be_declared(known, links, entry) {
        return Err(typer.broken(2, name));
    }
    if is_misplaced_static(known, said.storage, entry.sort) {
        return Err(typer.broken(3, said.first));
    }
    let kind = kind_seen(known, links, entry)?;
    if !may_be_object(known, said.storage, initialised, entry.sort, kind) {
        return Err(typer.broken(5, here));
    }
    let may = may_be_main(typer, known, entry)?;
    if !may {
        return Err(typer.broken(36, name));
    }
    Ok(kind)
}
