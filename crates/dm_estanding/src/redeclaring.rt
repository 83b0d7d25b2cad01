//! When a name may be declared again (6.7p3), and the type that it has then (6.2.7).

ghost use Rattle.std.specs.Prelude.{◌≡◌, true, ◌&&◌, ◌||◌, List, IfOk, IfSome, option_map, Some, slice_get};
ghost use Rattle.std.specs.Option.{option_copied};
ghost use Rattle.dm_type.specs.declared.shape.Shape.{Shape as OneShape};
ghost use Rattle.dm_type.specs.Alike.{are_compatible};
ghost use Rattle.dm_type.specs.Tables.{Table, IsId};
ghost use Rattle.dm_tree.specs.declared.unit.Declared.{Declared as Entry};
ghost use Rattle.dm_tree.specs.Initialisers as initialisers;
ghost use Rattle.dm_tree.specs.Units.{Declaration};
ghost use Rattle.dm_tree.specs.Views.{view_of_declared};
ghost use Rattle.dm_typing.specs.Views.{Begins, table_over, type_over, known_over, Grows};
ghost use Rattle.dm_edecl.specs.Standing as standings;
ghost use Rattle.dm_edecl.specs.Linkages as linkages;
ghost use Rattle.dm_estanding.specs.Kinds.{HaveKinds};
ghost use Rattle.dm_estanding.specs.Summaries.{entry_over, kind_of_whole, StandsFor, AreSeenCompatible};

use crate::links::{Links, Whole, composite};
use crate::storage::has_linkage;
use dm_enames::tags::meaning_of;
use dm_token::{Memory, Text};
use dm_tree::{Declared, Linkage, Sort};
use dm_type::{TypeId, Types};
use dm_typing::Known;
use dm_typing::looks::is_same;

/// What the innermost scope says of a name.
pub fn meaning_here<'a>(known: &'a Known, name: &Text) -> Option<&'a Declared>
    ensures meaning { (later : List OneShape) → option_map (view_of_declared (table_over later known.now.types)) (option_copied result) ≡ linkages.meaning_here (known_over later known.now) name.now }
    ensures numbered { IfSome result (λ entry. IsId known.now.types entry.now.kind) }
{
    if !known.scopes.is_declared(name) {
        return None;
    }
    meaning_of(known, name)
}

/// Whether it is a typedef.
fn is_typedef(sort: Sort) -> bool
    ensures { result ≡ linkages.is_typedef sort }
{
    matches!(sort, Sort::Typedef)
}

/// Whether it is an object.
pub fn is_object(sort: Sort) -> bool
    ensures { result ≡ initialisers.is_object sort }
{
    matches!(sort, Sort::Object { fixed: _ })
}

/// Whether it is a function.
pub fn is_function_sort(sort: Sort) -> bool
    ensures { result ≡ initialisers.is_function_sort sort }
{
    matches!(sort, Sort::Function)
}

/// Whether both have the same linkage, and have one.
fn is_same_linkage(linkage: Linkage, other: Linkage) -> bool
    ensures { result ≡ linkages.is_same_linkage linkage other }
{
    match (linkage, other) {
        (Linkage::External, Linkage::External) | (Linkage::Internal, Linkage::Internal) => true,
        _ => false,
    }
}

/// Whether a name has linkage in its scope, if it is declared there.
fn is_linked_if_there(old: Option<&Declared>) -> bool
    ensures { (types : Table) → result ≡ linkages.is_linked_if_there (option_map (view_of_declared types) (option_copied old.entry)) }
{
    match old {
        Some(old) => has_linkage(old.linkage),
        None => true,
    }
}

/// Whether both are typedefs of the same type, if the name is declared (6.7p3).
fn is_same_typedef(types: &Types, old: Option<&Declared>, entry: &Declared) -> bool
    requires old { IfSome old (λ one. IsId types.now one.now.kind) }
    requires entry { IsId types.now entry.now.kind }
    ensures { (later : List OneShape) → Begins types.now.shapes later → result ≡ linkages.is_same_typedef (option_map (view_of_declared (table_over later types.now)) (option_copied old.entry)) (entry_over later entry.now) }
{
    match old {
        Some(old) => is_typedef_again(types, old, entry),
        None => true,
    }
}

/// Whether both are typedefs of the same type (6.7p3).
fn is_typedef_again(types: &Types, old: &Declared, entry: &Declared) -> bool
    requires old { IsId types.now old.now.kind }
    requires entry { IsId types.now entry.now.kind }
    ensures { (later : List OneShape) → Begins types.now.shapes later → result ≡ linkages.is_same_typedef (Some (view_of_declared (table_over later types.now) old.now)) (entry_over later entry.now) }
{
    if !is_typedef(old.sort) {
        return false;
    }
    if !is_typedef(entry.sort) {
        return false;
    }
    is_same(types, old.kind, entry.kind)
}

/// Whether an entry agrees with an earlier one, of which all declarations say this type: in what it is, in linkage
/// (6.2.2p7), and in compatible types (6.2.7p2).
fn agree(types: &Types, old: &Declared, kind: TypeId, entry: &Declared) -> bool
    requires old { IsId types.now kind }
    requires entry { IsId types.now entry.now.kind }
    ensures { (later : List OneShape) → Begins types.now.shapes later → result ≡ linkages.agree (view_of_declared (table_over later types.now) old.now) (type_over later kind) (entry_over later entry.now) }
{
    if !is_same_sort(old.sort, entry.sort) {
        return false;
    }
    if !is_same_linkage(old.linkage, entry.linkage) {
        return false;
    }
    types.compatible(kind, entry.kind)
}

/// Whether both are objects, or both functions.
fn is_same_sort(old: Sort, new: Sort) -> bool
    ensures { result ≡ (initialisers.is_object old && initialisers.is_object new || initialisers.is_function_sort old && initialisers.is_function_sort new) }
{
    is_object(old) && is_object(new) || is_function_sort(old) && is_function_sort(new)
}

/// Whether an entry agrees with the earlier one of this number, if there is one.
fn agrees_with(known: &Known, links: &Links, number: u32, entry: &Declared) -> bool
    requires kind { IsId known.now.types entry.now.kind }
    requires kinds { HaveKinds known.now.types links.now }
    ensures { (later : List OneShape) → Begins known.now.types.shapes later → (before : standings.Standing) → StandsFor later known.now links.now before
        → result ≡ linkages.agrees_if_there before (entry_over later entry.now) (Some number) }
{
    match known.declared.items().get(number as usize) {
        Some(old) => {
            let kind = kind_of_whole(links.whole(number), old.kind);
            agree(&known.types, old, kind, entry)
        }
        None => true,
    }
}

/// The type that all declarations say, or else this one.
fn kind_of_whole(whole: Option<Whole>, kind: TypeId) -> TypeId
    ensures { result ≡ kind_of_whole whole kind }
{
    match whole {
        Some(whole) => whole.kind,
        None => kind,
    }
}

/// Whether an entry agrees with the earlier one with linkage of its name, if there is one.
fn agrees_if_there(known: &Known, links: &Links, entry: &Declared) -> bool
    requires kind { IsId known.now.types entry.now.kind }
    requires kinds { HaveKinds known.now.types links.now }
    ensures { (later : List OneShape) → Begins known.now.types.shapes later → (before : standings.Standing) → StandsFor later known.now links.now before
        → result ≡ linkages.agrees_if_there before (entry_over later entry.now) (linkages.number_shared before entry.now.name) }
{
    match links.number(&entry.name) {
        Some(number) => agrees_with(known, links, number, entry),
        None => true,
    }
}

/// Whether no other declaration of the name speaks against an entry (C2).
pub fn may_be_declared(known: &Known, links: &Links, entry: &Declared) -> bool
    requires kind { IsId known.now.types entry.now.kind }
    requires kinds { HaveKinds known.now.types links.now }
    ensures { (later : List OneShape) → Begins known.now.types.shapes later → (before : standings.Standing) → StandsFor later known.now links.now before
        → result ≡ linkages.may_be_declared before (entry_over later entry.now) }
{
    let here = meaning_here(known, &entry.name);
    if has_linkage(entry.linkage) {
        return is_linked_if_there(here) && agrees_if_there(known, links, entry);
    }
    is_same_typedef(&known.types, here, entry)
}

/// The number of the entry that this one shares with an earlier declaration: of what has linkage, or of the same typedef.
pub fn number_before(known: &Known, links: &Links, entry: &Declared) -> Option<u32>
    ensures { (later : List OneShape) (before : standings.Standing) → StandsFor later known.now links.now before
        → result ≡ linkages.number_before before (entry_over later entry.now) }
{
    if has_linkage(entry.linkage) {
        return links.number(&entry.name);
    }
    if meaning_here(known, &entry.name).is_none() {
        return None;
    }
    known.scopes.resolve(&entry.name)
}

/// The type of an entry from its declaration on: the composite type where another one of it is visible before (6.2.7p4).
pub fn kind_seen(known: &mut Known, links: &Links, entry: &Declared) -> Result<TypeId, Memory>
    requires { IsId known.old.types entry.now.kind }
    ensures seen { IfOk result (λ kind. (later : List OneShape) → Begins known.new.types.shapes later → (before : standings.Standing) → StandsFor later known.old links.now before
        → AreSeenCompatible before (entry_over later entry.now) → type_over later kind ≡ linkages.kind_seen before (entry_over later entry.now)) }
    ensures numbered { IfOk result (IsId known.new.types) }
    ensures grows { Grows known.old known.new }
{
    if !has_linkage(entry.linkage) {
        return Ok(entry.kind);
    }
    match links.number(&entry.name) {
        Some(number) if known.scopes.resolve(&entry.name) == Some(number) => {
            kind_joined(known, number, entry.kind)
        }
        _ => Ok(entry.kind),
    }
}

/// The composite of the type of the entry of a number, if there is one, and another.
fn kind_joined(known: &mut Known, number: u32, kind: TypeId) -> Result<TypeId, Memory>
    requires { IsId known.old.types kind }
    ensures joined { IfOk result (λ both. (later : List OneShape) → Begins known.new.types.shapes later
        → IfSome (slice_get (known_over later known.old).declared number) (λ old. are_compatible old.kind (type_over later kind) ≡ true)
        → type_over later both ≡ linkages.kind_with (type_over later kind) true (slice_get (known_over later known.old).declared number)) }
    ensures numbered { IfOk result (IsId known.new.types) }
    ensures grows { Grows known.old known.new }
{
    match kind_at(known, number) {
        Some(before) => composite(known, before, kind),
        None => Ok(kind),
    }
}

/// The type of the entry of a number.
pub(crate) fn kind_at(known: &Known, number: u32) -> Option<TypeId>
    ensures entry { result ≡ option_map (λ (old : Entry). old.kind) (slice_get known.now.declared number) }
    ensures kind { (later : List OneShape) → option_map (type_over later) result ≡ option_map (λ (old : Declaration). old.kind) (slice_get (known_over later known.now).declared number) }
    ensures numbered { IfSome result (IsId known.now.types) }
{
    let entry = known.declared.items().get(number as usize)?;
    Some(entry.kind)
}
