//! Declarators with their initialisers (6.7).

ghost use Rattle.std.specs.Prelude.{◌≡◌, List as Sequence, IfOk, map};
ghost use Rattle.dm_type.specs.declared.shape.Shape.{Shape as OneShape};
ghost use Rattle.dm_type.specs.Tables.{Table, IsId};
ghost use Rattle.dm_syn.specs.Views as syntax;
ghost use Rattle.dm_typing.specs.Views.{type_over, source_of, setting_of};
ghost use Rattle.dm_edecl.specs.Declaring as declaring;
ghost use Rattle.dm_edecl.specs.Linkages as linkages;
ghost use Rattle.dm_estanding.specs.Proceeding.{Proceeds};
ghost use Rattle.dm_estanding.specs.Summaries.{storage_seen};
ghost use Rattle.dm_edeclaration.specs.Steps.{specified_over, SpecifiedFits, bare_over, LocalFits, typed_over, TypedFits, item_of, together, items_over, ItemsFit, joined};

use crate::declarable::{declarable, name_at};
use crate::initialised::{Object, initialised};
use crate::specified::Specification;
use dm_edeclarator::places::replace_constants;
use dm_eexpr::syntax::declared_type;
use dm_estanding::Standing;
use dm_estanding::redeclaring::is_object;
use dm_estanding::storage::{Storage, entry_of};
use dm_syn::{Declarator, InitDeclarator, Initialiser};
use dm_token::{List, Memory, Span, Stop};
use dm_tree::{Core, Local, Sort};
use dm_type::TypeId;
use dm_typing::Typer;

/// A declarator that is typed, with the trees of its lengths and enumerator values.
#[derive(Drop)]
pub struct TypedLocal {
    pub constants: List<Core>,
    pub local: Local,
}

/// Declarators that are typed, with all these trees.
#[derive(Drop)]
pub struct TypedLocals {
    pub constants: List<Core>,
    pub locals: List<Local>,
}

impl TypedLocals {
    /// One declarator more.
    fn with(self, typed: TypedLocal) -> Result<TypedLocals, Memory>
        ensures more { IfOk result (λ made. (later : Sequence OneShape) → items_over later made ≡ joined (items_over later self) (typed_over later typed)) }
        ensures numbered { IfOk result (λ made. (types : Table) → ItemsFit types self → TypedFits types typed → ItemsFit types made) }
    {
        let mut constants = self.constants.into_vec();
        let mut locals = self.locals.into_vec();
        constants.append(&mut typed.constants.into_vec())?;
        locals.push(typed.local)?;
        Ok(TypedLocals {
            constants: List::from_vec(constants),
            locals: List::from_vec(locals),
        })
    }
}

/// Whether an object is defined without an initialiser, tentatively in file scope, unless it is declared `extern` (6.7p5,
/// 6.9.2p2).
fn defines_object(storage: Storage, sort: Sort) -> bool
    ensures { result ≡ declaring.defines_object (storage_seen storage) sort }
{
    is_object(sort) && !matches!(storage, Storage::Extern)
}

/// A declarator of this type without an initialiser.
fn item_plain(
    typer: &Typer<'_>,
    standing: &mut Standing,
    said: &Specification,
    declarator: &Declarator,
    kind: TypeId,
) -> Result<Local, Stop>
    requires { IsId standing.old.known.types kind }
    ensures { Proceeds LocalFits bare_over (source_of typer.now) standing.old standing.new result
        (λ later before. declaring.item_plain (setting_of typer.now) (specified_over later said.now) before (syntax.declarator declarator.now)
        (linkages.entry_of (setting_of typer.now) before.known (storage_seen said.now.storage) (declaring.name_at (syntax.declarator declarator.now)) (type_over later kind))) }
{
    let here = declarator.span.first;
    let at = name_at(declarator);
    let entry = entry_of(typer, &standing.known, said.storage, at, kind)?;
    let defines = defines_object(said.storage, entry.sort);
    let seen = declarable(
        typer,
        &mut standing.known,
        &standing.links,
        said,
        false,
        here,
        at,
        &entry,
    )?;
    let number = standing.declared_here(entry, seen)?;
    Ok(Local {
        declared: number,
        defines,
        initial: None,
    })
}

/// A declarator of this type with an initialiser.
fn item_initialised(
    typer: &Typer<'_>,
    standing: &mut Standing,
    said: &Specification,
    span: Span,
    declarator: &Declarator,
    kind: TypeId,
    initialiser: &Initialiser,
) -> Result<Local, Stop>
    requires { IsId standing.old.known.types kind }
    ensures { Proceeds LocalFits bare_over (source_of typer.now) standing.old standing.new result
        (λ later before. declaring.item_initialised (setting_of typer.now) (specified_over later said.now) before span (syntax.declarator declarator.now) (syntax.initialiser initialiser.now)
        (linkages.entry_of (setting_of typer.now) before.known (storage_seen said.now.storage) (declaring.name_at (syntax.declarator declarator.now)) (type_over later kind))) }
{
    let here = declarator.span.first;
    let at = name_at(declarator);
    let entry = entry_of(typer, &standing.known, said.storage, at, kind)?;
    let seen = declarable(
        typer,
        &mut standing.known,
        &standing.links,
        said,
        true,
        here,
        at,
        &entry,
    )?;
    let name = entry.name.copy()?;
    let sort = entry.sort;
    let linkage = entry.linkage;
    let number = standing.declared_here(entry, seen)?;
    let object = Object {
        name,
        sort,
        linkage,
        number,
        here,
        at,
    };
    initialised(typer, standing, &object, seen, span, initialiser)
}

/// A declarator of this type, with its initialiser if it has one.
fn item_of(
    typer: &Typer<'_>,
    standing: &mut Standing,
    said: &Specification,
    item: &InitDeclarator,
    kind: TypeId,
) -> Result<Local, Stop>
    requires { IsId standing.old.known.types kind }
    ensures { Proceeds LocalFits bare_over (source_of typer.now) standing.old standing.new result
        (λ later before. item_of (setting_of typer.now) (specified_over later said.now) before (type_over later kind) (syntax.item item.now)) }
{
    match &item.initialiser {
        Some(initialiser) => {
            item_initialised(
                typer,
                standing,
                said,
                item.span,
                &item.declarator,
                kind,
                initialiser,
            )
        }
        None => item_plain(typer, standing, said, &item.declarator, kind),
    }
}

/// A declarator and its initialiser, where specifiers say so much.
fn typed_item(
    typer: &Typer<'_>,
    standing: &mut Standing,
    said: &Specification,
    item: &InitDeclarator,
) -> Result<TypedLocal, Stop>
    requires { SpecifiedFits standing.old.known.types said.now }
    ensures { Proceeds TypedFits typed_over (source_of typer.now) standing.old standing.new result
        (λ later before. declaring.typed_item (setting_of typer.now) (specified_over later said.now) before (syntax.item item.now)) }
{
    let declarator = &item.declarator;
    let kind = declared_type(typer, &mut standing.known, true, said.kind, declarator)?;
    let constants = replace_constants(&mut standing.known, List::new(typer.alloc));
    let local = item_of(typer, standing, said, item, kind)?;
    Ok(TypedLocal { constants, local })
}

/// The declarators of a declaration, one after another.
pub(crate) fn typed_items(
    typer: &Typer<'_>,
    standing: &mut Standing,
    said: &Specification,
    items: &[InitDeclarator],
) -> Result<TypedLocals, Stop>
    requires { SpecifiedFits standing.old.known.types said.now }
    ensures { Proceeds ItemsFit items_over (source_of typer.now) standing.old standing.new result
        (λ later before. together (declaring.typed_items (setting_of typer.now) (specified_over later said.now) before (map syntax.item items.now))) }
{
    let mut all = TypedLocals {
        constants: List::new(typer.alloc),
        locals: List::new(typer.alloc),
    };
    for item in items {
        let typed = typed_item(typer, standing, said, item)?;
        let more = all.with(typed)?;
        all = more;
    }
    Ok(all)
}
