//! Objects that are initialised (6.7.9).

ghost use Rattle.std.specs.Prelude.{◌≡◌, ◌||◌, true, List, unwrap_or};
ghost use Rattle.dm_type.specs.declared.shape.Shape.{Shape as OneShape};
ghost use Rattle.dm_type.specs.Tables.{IsId};
ghost use Rattle.dm_syn.specs.Views as syntax;
ghost use Rattle.dm_tree.specs.Initialisers as initialisers;
ghost use Rattle.dm_tree.specs.Units.{Declaration};
ghost use Rattle.dm_typing.specs.Views.{Begins, type_over, known_over, source_of, setting_of};
ghost use Rattle.dm_edecl.specs.Declaring as declaring;
ghost use Rattle.dm_edecl.specs.Initialising as initialising;
ghost use Rattle.dm_edecl.specs.Linkages as linkages;
ghost use Rattle.dm_edecl.specs.Standing as standings;
ghost use Rattle.dm_einitial.specs.Steps.{initial_over, InitialFits};
ghost use Rattle.dm_estanding.specs.Proceeding.{Proceeds};
ghost use Rattle.dm_estanding.specs.Summaries.{StandsFor};
ghost use Rattle.dm_edeclaration.specs.Steps.{bare_over, LocalFits, Means, IsNamed, ProceedsWhere, object_initialised};

use dm_einitial::lengths::completed;
use dm_einitial::lists::{expressions_alone, typed_initialiser};
use dm_estanding::Standing;
use dm_estanding::redeclaring::{is_function_sort, is_object};
use dm_estanding::storage::{has_linkage, is_file_scope};
use dm_syn::Initialiser;
use dm_token::{Span, Stop, Text};
use dm_tree::{Initial, Linkage, Local, Sort};
use dm_type::TypeId;
use dm_typing::looks::is_complete;
use dm_typing::{Known, Typer};

/// What is initialised: its entry, the token at which its declarator begins, and that of its name.
#[derive(Drop)]
pub(crate) struct Object {
    pub name: Text,
    pub sort: Sort,
    pub linkage: Linkage,
    pub number: u32,
    pub here: u32,
    pub at: u32,
}

/// Whether it has static storage.
fn is_fixed(sort: Sort) -> bool
    ensures { result ≡ initialisers.is_fixed sort }
{
    matches!(sort, Sort::Object { fixed: true })
}

/// Whether it may have an initialiser: a typedef has none, nor has an object with linkage in a block (C9, 6.7.9p5).
fn may_be_initialised(known: &Known, object: &Object) -> bool
    ensures { (later : List OneShape) (entry : Declaration) → Means entry object.now → result ≡ declaring.may_be_initialised (known_over later known.now) entry }
{
    if is_function_sort(object.sort) {
        return true;
    }
    if !is_object(object.sort) {
        return false;
    }
    is_file_scope(known) || !has_linkage(object.linkage)
}

/// The type that all declarations of an entry say so far, or else this one.
fn kind_declared(standing: &Standing, number: u32, kind: TypeId) -> TypeId
    requires { IsId standing.now.known.types kind }
    ensures kind { (later : List OneShape) (before : standings.Standing) → StandsFor later standing.now.known standing.now.links before
        → type_over later result ≡ unwrap_or (linkages.whole_kind number before.linked) (type_over later kind) }
    ensures numbered { IsId standing.now.known.types result }
{
    match standing.links.whole(number) {
        Some(whole) => whole.kind,
        None => kind,
    }
}

/// Whether it may be defined with a type that is complete: that agrees with all its declarations (6.2.7p2), and it is defined
/// once (C2, 6.9p3, p5).
fn may_define(standing: &Standing, number: u32, kind: TypeId) -> bool
    requires { IsId standing.now.known.types kind }
    ensures { (later : List OneShape) → Begins standing.now.known.types.shapes later → (before : standings.Standing) → StandsFor later standing.now.known standing.now.links before
        → result ≡ declaring.may_define before number (type_over later kind) }
{
    let whole = kind_declared(standing, number, kind);
    if !standing.known.types.compatible(whole, kind) {
        return false;
    }
    !standing.links.is_defined(number)
}

/// An object with its initialiser, which completes its type.
fn object_defined(
    typer: &Typer<'_>,
    standing: &mut Standing,
    object: &Object,
    kind: TypeId,
    initial: Initial,
) -> Result<Local, Stop>
    requires kind { IsId standing.old.known.types kind }
    requires initial { InitialFits standing.old.known.types initial }
    ensures { (entry : Declaration) → Means entry object.now → (initialisers.is_function_sort entry.sort || initialisers.is_object entry.sort) ≡ true
        → ProceedsWhere (IsNamed entry object.now.number) LocalFits bare_over (source_of typer.now) standing.old standing.new result
        (λ later before. declaring.object_defined before entry object.now.number object.now.here object.now.at (type_over later kind) (initial_over later initial)) }
{
    if !may_define(standing, object.number, kind) {
        return Err(typer.broken(2, object.at));
    }
    if !is_complete(&standing.known, kind) {
        return Err(typer.broken(5, object.here));
    }
    let linked = has_linkage(object.linkage);
    standing.object_here(&object.name, linked, object.number, kind)?;
    Ok(Local {
        declared: object.number,
        defines: true,
        initial: Some(initial),
    })
}

/// An object of this type with its initialiser.
fn object_initialised(
    typer: &Typer<'_>,
    standing: &mut Standing,
    object: &Object,
    kind: TypeId,
    initialiser: &Initialiser,
) -> Result<Local, Stop>
    requires { IsId standing.old.known.types kind }
    ensures { (entry : Declaration) → Means entry object.now → (initialisers.is_function_sort entry.sort || initialisers.is_object entry.sort) ≡ true
        → ProceedsWhere (IsNamed entry object.now.number) LocalFits bare_over (source_of typer.now) standing.old standing.new result
        (λ later before. object_initialised (setting_of typer.now) entry object.now.number object.now.here object.now.at (syntax.initialiser initialiser.now) before (type_over later kind)) }
{
    let fixed = is_fixed(object.sort);
    let initial = typed_initialiser(typer, &mut standing.known, fixed, kind, initialiser)?;
    object_defined(typer, standing, object, kind, initial)
}

/// What may have no initialiser has one, whose expressions are typed all the same.
fn misplaced(
    typer: &Typer<'_>,
    standing: &mut Standing,
    span: Span,
    initialiser: &Initialiser,
) -> Result<Local, Stop>
    ensures { Proceeds LocalFits bare_over (source_of typer.now) standing.old standing.new result
        (λ later before. standings.typing before (initialising.expressions_alone (setting_of typer.now) before.known (syntax.initialiser initialiser.now)) (λ behind trees. standings.stops 9 span.first)) }
{
    expressions_alone(typer, &mut standing.known, initialiser)?;
    Err(typer.broken(9, span.first))
}

/// What is declared with an initialiser, behind its declarator.
pub(crate) fn initialised(
    typer: &Typer<'_>,
    standing: &mut Standing,
    object: &Object,
    kind: TypeId,
    span: Span,
    initialiser: &Initialiser,
) -> Result<Local, Stop>
    requires { IsId standing.old.known.types kind }
    ensures { (entry : Declaration) → Means entry object.now → ProceedsWhere (IsNamed entry object.now.number) LocalFits bare_over (source_of typer.now) standing.old standing.new result
        (λ later before. declaring.initialised (setting_of typer.now) before entry object.now.number span object.now.here object.now.at (type_over later kind) (syntax.initialiser initialiser.now)) }
{
    if !may_be_initialised(&standing.known, object) {
        return misplaced(typer, standing, span, initialiser);
    }
    let whole = completed(typer, &mut standing.known, kind, initialiser)?;
    object_initialised(typer, standing, object, whole, initialiser)
}
