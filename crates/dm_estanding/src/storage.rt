//! Storage-class specifiers (6.7.1) and the linkage of what is declared (6.2.2).

ghost use Rattle.std.specs.Prelude.{◌≡◌, List, IfOk, option_map};
ghost use Rattle.std.specs.Option.{option_copied};
ghost use Rattle.dm_type.specs.declared.shape.Shape.{Shape as OneShape};
ghost use Rattle.dm_type.specs.Tables.{Table, IsId};
ghost use Rattle.dm_tree.specs.Typing as typed;
ghost use Rattle.dm_tree.specs.Views.{view_of_declared};
ghost use Rattle.dm_typing.specs.Typing as typing;
ghost use Rattle.dm_typing.specs.Views.{Begins, type_over, known_over, setting_of};
ghost use Rattle.dm_edecl.specs.Linkages as linkages;
ghost use Rattle.dm_estanding.specs.Summaries.{storage_seen, entry_over};

use dm_enames::tags::meaning_of;
use dm_spell::keyword;
use dm_token::Memory;
use dm_tree::{Declared, Linkage, Sort};
use dm_type::TypeId;
use dm_typing::looks::is_function;
use dm_typing::{Known, Typer};

/// What the storage-class specifiers of a declaration say.
#[derive(Clone, Copy)]
pub enum Storage {
    Unsaid,
    Typedef,
    Extern,
    Static,
}

/// The first of some, by their rows in the table of keywords (6.4.1).
pub fn storage_of(rows: &[u16]) -> Storage
    ensures { storage_seen result ≡ linkages.storage_of rows.now }
{
    match rows.first() {
        None => Storage::Unsaid,
        Some(&keyword::TYPEDEF) => Storage::Typedef,
        Some(&keyword::EXTERN) => Storage::Extern,
        Some(_) => Storage::Static,
    }
}

/// Whether declarations with this linkage may mean one entity (6.2.2p1).
pub fn has_linkage(linkage: Linkage) -> bool
    ensures { result ≡ typed.has_linkage linkage }
{
    !matches!(linkage, Linkage::Absent)
}

/// The linkage of an earlier declaration that is visible, and else external linkage (6.2.2p4).
fn linkage_before(before: Option<&Declared>) -> Linkage
    ensures { (types : Table) → result ≡ linkages.linkage_before (option_map (view_of_declared types) (option_copied before.entry)) }
{
    match before {
        Some(old) if has_linkage(old.linkage) => old.linkage,
        _ => Linkage::External,
    }
}

/// The linkage of a function or an object, in file scope or in a block, where its name means this before.
pub fn linkage_of(
    storage: Storage,
    is_function: bool,
    in_file: bool,
    before: Option<&Declared>,
) -> Linkage
    ensures { (types : Table) → result ≡ linkages.linkage_of (storage_seen storage) is_function in_file (option_map (view_of_declared types) (option_copied before.entry)) }
{
    match (storage, is_function, in_file) {
        (Storage::Typedef, _, _) => Linkage::Absent,
        (Storage::Static, _, true) => Linkage::Internal,
        (Storage::Static, _, false) => Linkage::Absent,
        (Storage::Extern, _, _) | (Storage::Unsaid, true, _) => linkage_before(before),
        (Storage::Unsaid, false, true) => Linkage::External,
        (Storage::Unsaid, false, false) => Linkage::Absent,
    }
}

/// What an entry with this linkage is. An object has static storage duration if it has linkage or is declared `static`
/// (6.2.4p3).
pub fn sort_of(storage: Storage, is_function: bool, linkage: Linkage) -> Sort
    ensures { result ≡ linkages.sort_of (storage_seen storage) is_function linkage }
{
    match (storage, is_function) {
        (Storage::Typedef, _) => Sort::Typedef,
        (_, true) => Sort::Function,
        (_, false) => Sort::Object {
            fixed: has_linkage(linkage) || matches!(storage, Storage::Static),
        },
    }
}

/// Whether the innermost scope is that of the file.
pub fn is_file_scope(known: &Known) -> bool
    ensures { result ≡ typing.is_file_scope known.now.scopes }
{
    known.scopes.depth() == 1
}

/// The entry of a name that is declared at a token, with a type.
pub fn entry_of(
    typer: &Typer<'_>,
    known: &Known,
    storage: Storage,
    at: u32,
    kind: TypeId,
) -> Result<Declared, Memory>
    requires { IsId known.now.types kind }
    ensures entry { IfOk result (λ entry. (later : List OneShape) → Begins known.now.types.shapes later
        → entry_over later entry ≡ linkages.entry_of (setting_of typer.now) (known_over later known.now) (storage_seen storage) at (type_over later kind)) }
    ensures kind { IfOk result (λ entry. entry.kind ≡ kind) }
{
    let name = typer.spelling(at)?;
    let is_function = is_function(&known.types, kind);
    let linkage = linkage_of(
        storage,
        is_function,
        is_file_scope(known),
        meaning_of(known, &name),
    );
    Ok(Declared {
        name,
        sort: sort_of(storage, is_function, linkage),
        kind,
        linkage,
        place: typer.place(at),
    })
}
