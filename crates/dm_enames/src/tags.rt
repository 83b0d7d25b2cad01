//! Tags of structs and enums (6.7.2.3), and enumerators (6.7.2.2).

ghost use Rattle.std.specs.Prelude.{◌≡◌, ◌≢◌, ℕ, ℤ, ◌<◌, false, ◌&&◌, All, List, [], ◌∷◌, ◌++◌, drop, length, reverse, IsOk, IfOk, OnOk, IfSome, IfNone, option_map, option_and_then, Option, Some, None, pos, ◌+ℤ◌, bytes_eq, codes};
ghost use Rattle.std.specs.Option.{option_copied};
ghost use Rattle.dm_type.specs.declared.shape.Shape.{Shape as OneShape};
ghost use Rattle.dm_type.specs.declared.shape.Shape.TheVariants.{Struct as StructShape};
ghost use Rattle.dm_type.specs.CTypes.{struct};
ghost use Rattle.dm_type.specs.Layouts.{contained};
ghost use Rattle.dm_type.specs.Tables.{AreDistinct, IsId, type_of, with_content};
ghost use Rattle.dm_scope.specs.Scopes.{is_declared, number_of};
ghost use Rattle.dm_syn.specs.Sources.{spelling_at};
ghost use Rattle.dm_tree.specs.Units.{Declaration};
ghost use Rattle.dm_tree.specs.Views.{view_of_declared};
ghost use Rattle.dm_typing.specs.Conversions.{constant_of};
ghost use Rattle.dm_typing.specs.Fitting.{IsNumbered};
ghost use Rattle.dm_typing.specs.Known as meant;
ghost use Rattle.dm_enames.specs.Tags.{is_tag_inside, type_meant, struct_at, with_new, ended, IsInnermost, IsUnopened, if_int, fields_over};
ghost use Rattle.dm_typing.specs.Typing as typing;
ghost use Rattle.dm_typing.specs.Views.{Begins, IsNumberOf, type_over, table_over, view_over, known_over, seen, source_of, setting_of, Gives, Grows};

use dm_int::Kind;
use dm_token::{Memory, Span, Stop, Text};
use dm_tree::{Core, Declared, Linkage, Sort, constant};
use dm_type::{Members, Shape, TypeId};
use dm_typing::looks::is_integer;
use dm_typing::{Known, Typer};

/// The greatest number of declarations and of structs.
const MOST: usize = u32::MAX as usize;

/// The struct of a type.
fn number_if_struct(known: &Known, kind: TypeId) -> Option<u32>
    requires { IsId known.now.types kind }
    ensures number { result ≡ typing.number_if_struct (type_of known.now.types kind) }
    ensures below { IfSome result (λ number. number < length known.now.types.structs) }
    ensures distinct { AreDistinct known.now.types }
{
    match known.types.shape(kind) {
        Shape::Struct(number) => Some(*number),
        _ => None,
    }
}

/// The declaration that a name means (6.2.1).
pub fn meaning_of<'a>(known: &'a Known, name: &Text) -> Option<&'a Declared>
    ensures meaning { (later : List OneShape) → option_map (view_of_declared (table_over later known.now.types)) (option_copied result) ≡ meant.meaning_of (known_over later known.now) name.now }
    ensures numbered { IfSome result (λ entry. IsId known.now.types entry.now.kind) }
    ensures new { IfNone result (number_of known.now.scopes name.now ≡ None) }
{
    let number = known.scopes.resolve(name)?;
    known.declared.items().get(number as usize)
}

/// The type of the declaration that a name means.
pub fn type_meant(known: &Known, name: &Text) -> Option<TypeId>
    ensures kind { (later : List OneShape) → option_map (type_over later) result ≡ type_meant (meant.meaning_of (known_over later known.now) name.now) }
    ensures numbered { IfSome result (IsId known.now.types) }
    ensures new { IfNone result (number_of known.now.scopes name.now ≡ None) }
{
    let entry = meaning_of(known, name)?;
    Some(entry.kind)
}

/// One declaration more, which its name means from here on. More than 4,294,967,295 count as want of memory.
pub fn declare(known: &mut Known, key: &Text, entry: Declared) -> Result<(), Memory>
    requires kind { IsId known.old.types entry.kind }
    requires new { is_declared known.old.scopes key.now ≡ false }
    ensures declared { OnOk result ((later : List OneShape) → known_over later known.new ≡ meant.declaring (known_over later known.old) key.now (view_of_declared (table_over later known.old.types) entry)) }
    ensures types { known.new.types ≡ known.old.types }
    ensures begun { known.new.begun.items ≡ known.old.begun.items }
{
    let number = known.declared.len();
    if number >= MOST {
        return Err(Memory);
    }
    known.declared.push(entry)?;
    let _new = known.scopes.declare(key, number as u32)?;
    Ok(())
}

/// A struct of which nothing is known but its tag: its number, and its type. More than 4,294,967,295 count as want of
/// memory.
fn add_struct(known: &mut Known, tag: Option<Text>) -> Result<(u32, TypeId), Memory>
    ensures known { OnOk result ((later : List OneShape) → known_over later known.new ≡ with_new (known_over later known.old) tag) }
    ensures number { IfOk result (λ made. made.0 ≡ length known.old.types.structs) }
    ensures kind { IfOk result (λ made. IsNumberOf known.new.types.shapes made.1 (StructShape made.0)) }
    ensures unopened { IfOk result (λ made. IsUnopened known.new made.0) }
    ensures shapes { Begins known.old.types.shapes known.new.types.shapes }
    ensures scopes { known.new.scopes ≡ known.old.scopes }
    ensures begun { known.new.begun.items ≡ known.old.begun.items }
{
    if known.types.struct_count() >= MOST {
        return Err(Memory);
    }
    let number = known.types.new_struct(tag)?;
    let kind = known.intern(Shape::Struct(number))?;
    Ok((number, kind))
}

/// Whether the members of a struct are being read.
fn is_begun(known: &Known, number: u32) -> bool
    ensures { result ≡ typing.is_among number (reverse known.now.begun.items) }
{
    is_among(number, known.begun.as_slice())
}

/// The members of a struct follow.
fn begin(known: &mut Known, number: u32) -> Result<(), Memory>
    requires { IsUnopened known.old number }
    ensures known { OnOk result ((later : List OneShape) → known_over later known.new ≡ typing.beginning (known_over later known.old) (Some number)) }
    ensures begun { OnOk result (known.new.begun.items ≡ known.old.begun.items ++ number ∷ []) }
    ensures types { known.new.types ≡ known.old.types }
{
    known.begun.push(number)?;
    Ok(())
}

/// The members of the struct of a type follow, unless it has them, they are being read, or it is no struct.
fn begin_again(known: &mut Known, kind: TypeId) -> Result<Option<TypeId>, Memory>
    requires { IsId known.old.types kind }
    ensures known { OnOk result ((later : List OneShape) → Begins known.old.types.shapes later → (entry : Declaration) → type_over later kind ≡ entry.kind
        → known_over later known.new ≡ typing.beginning (known_over later known.old) (typing.struct_begun (known_over later known.old) (Some entry))) }
    ensures kind { IfOk result (λ begun. (later : List OneShape) → Begins known.old.types.shapes later → (entry : Declaration) → type_over later kind ≡ entry.kind
        → option_map (type_over later) begun ≡ struct_at (typing.struct_begun (known_over later known.old) (Some entry))) }
    ensures innermost { IfOk result (λ begun. IfSome begun (IsInnermost known.new)) }
    ensures numbered { IfOk result (λ begun. IfSome begun (IsId known.new.types)) }
    ensures types { known.new.types ≡ known.old.types }
{
    match may_have_members(known, kind) {
        Some(number) => {
            begin(known, number)?;
            Ok(Some(kind))
        }
        None => Ok(None),
    }
}

/// One array length or enumerator value more.
fn add_constant(known: &mut Known, tree: Core) -> Result<(), Memory>
    requires { IsNumbered known.old.types tree }
    ensures known { OnOk result ((later : List OneShape) → known_over later known.new ≡ typing.with_constant (known_over later known.old) (view_over later tree)) }
    ensures types { known.new.types ≡ known.old.types }
{
    known.constants.push(tree)?;
    Ok(())
}

/// The innermost struct's members are read.
fn leave_innermost(begun: &mut Vec<u32>)
    ensures { reverse begun.new.items ≡ drop 1 (reverse begun.old.items) }
{
    let _innermost = begun.pop();
}

/// The members of the innermost struct are read.
fn end_struct(known: &mut Known, number: u32, members: Members) -> Result<(), Memory>
    requires below { number < length known.old.types.structs }
    requires some { members ≢ [] }
    requires types { All (λ member. IsId known.old.types member.kind) members }
    requires innermost { (outer : List ℕ) × (reverse known.old.begun.items ≡ number ∷ outer) }
    ensures ok { IsOk result }
    ensures types { known.new.types ≡ with_content known.old.types number (contained known.old.types members) }
    ensures known { (later : List OneShape) (outer : List ℕ) → reverse known.old.begun.items ≡ number ∷ outer
        → known_over later known.new ≡ ended (known_over later known.old) (table_over later known.new.types) outer }
{
    leave_innermost(&mut known.begun);
    known.types.set_members(number, members)?;
    Ok(())
}

/// A tag stands in the scopes under its spelling with `#` before it.
fn tag_key(typer: &Typer<'_>, name: &Text) -> Result<Text, Memory>
    ensures { IfOk result (λ key. key ≡ meant.tag_key name.now) }
{
    let mut bytes = Vec::from_slice(typer.alloc, b"#")?;
    bytes.extend_from_slice(name.bytes())?;
    let key = Text::from_vec(typer.alloc, bytes)?;
    Ok(key)
}

/// The key of a tag at a place.
fn key_at(typer: &Typer<'_>, at: u32) -> Result<Text, Memory>
    ensures { IfOk result (λ key. key ≡ meant.tag_key (spelling_at (source_of typer.now) at)) }
{
    let name = typer.spelling(at)?;
    let key = tag_key(typer, &name)?;
    Ok(key)
}

/// The type of the tag that is declared in the innermost scope.
pub fn tag_inside(
    typer: &Typer<'_>,
    known: &Known,
    tag: Option<u32>,
) -> Result<Option<TypeId>, Memory>
    ensures kind { IfOk result (λ found. (later : List OneShape) → option_map (type_over later) found ≡ type_meant (typing.tag_inside (setting_of typer.now) (known_over later known.now) tag)) }
    ensures numbered { IfOk result (λ found. IfSome found (IsId known.now.types)) }
    ensures new { IfOk result (λ found. IfNone found (is_tag_inside (setting_of typer.now) known.now.scopes tag ≡ false)) }
{
    let Some(at) = tag else {
        return Ok(None);
    };
    let key = key_at(typer, at)?;
    if !known.scopes.is_declared(&key) {
        return Ok(None);
    }
    Ok(type_meant(known, &key))
}

/// The type of the tag that is declared in any scope.
pub fn tag_seen(
    typer: &Typer<'_>,
    known: &Known,
    tag: Option<u32>,
) -> Result<Option<TypeId>, Memory>
    ensures kind { IfOk result (λ found. (later : List OneShape) → option_map (type_over later) found ≡ type_meant (typing.tag_seen (setting_of typer.now) (known_over later known.now) tag)) }
    ensures numbered { IfOk result (λ found. IfSome found (IsId known.now.types)) }
    ensures new { IfOk result (λ found. IfNone found (is_tag_inside (setting_of typer.now) known.now.scopes tag ≡ false)) }
{
    let Some(at) = tag else {
        return Ok(None);
    };
    let key = key_at(typer, at)?;
    Ok(type_meant(known, &key))
}

/// A tag, if there is one, is in scope from here on.
pub fn tag_declared(
    typer: &Typer<'_>,
    known: &mut Known,
    tag: Option<u32>,
    kind: TypeId,
) -> Result<(), Memory>
    requires kind { IsId known.old.types kind }
    requires new { is_tag_inside (setting_of typer.now) known.old.scopes tag ≡ false }
    ensures declared { OnOk result ((later : List OneShape) → known_over later known.new ≡ typing.tag_declared (setting_of typer.now) (known_over later known.old) tag (type_over later kind)) }
    ensures types { known.new.types ≡ known.old.types }
    ensures begun { known.new.begun.items ≡ known.old.begun.items }
{
    let Some(at) = tag else {
        return Ok(());
    };
    let name = typer.spelling(at)?;
    let key = tag_key(typer, &name)?;
    let entry = Declared {
        name,
        sort: Sort::Tag,
        kind,
        linkage: Linkage::Absent,
        place: typer.place(at),
    };
    declare(known, &key, entry)?;
    Ok(())
}

/// The spelling of a tag.
fn spelled(typer: &Typer<'_>, tag: Option<u32>) -> Result<Option<Text>, Memory>
    ensures { IfOk result (λ name. name ≡ typing.spelled (setting_of typer.now) tag) }
{
    match tag {
        Some(at) => {
            let name = typer.spelling(at)?;
            Ok(Some(name))
        }
        None => Ok(None),
    }
}

/// A struct of which nothing is known but its tag, which is in scope from here on: its number, and its type.
fn new_struct(
    typer: &Typer<'_>,
    known: &mut Known,
    tag: Option<u32>,
) -> Result<(u32, TypeId), Memory>
    requires new { is_tag_inside (setting_of typer.now) known.old.scopes tag ≡ false }
    ensures known { OnOk result ((later : List OneShape) → Begins known.new.types.shapes later → known_over later known.new ≡ typing.new_struct (setting_of typer.now) (known_over later known.old) tag) }
    ensures number { IfOk result (λ made. made.0 ≡ length known.old.types.structs) }
    ensures kind { IfOk result (λ made. (later : List OneShape) → Begins known.new.types.shapes later → type_over later made.1 ≡ struct made.0) }
    ensures numbered { IfOk result (λ made. IsId known.new.types made.1) }
    ensures unopened { IfOk result (λ made. IsUnopened known.new made.0) }
    ensures shapes { Begins known.old.types.shapes known.new.types.shapes }
{
    let name = spelled(typer, tag)?;
    let made = add_struct(known, name)?;
    tag_declared(typer, known, tag, made.1)?;
    Ok(made)
}

/// `struct` with a tag alone: the struct that the tag means, or a new one.
pub fn struct_named(
    typer: &Typer<'_>,
    known: &mut Known,
    span: Span,
    tag: Option<u32>,
    meant: Option<TypeId>,
) -> Result<TypeId, Stop>
    requires kind { IfSome meant (IsId known.old.types) }
    requires new { IfNone meant (is_tag_inside (setting_of typer.now) known.old.scopes tag ≡ false) }
    ensures gives { (later : List OneShape) → Begins known.new.types.shapes later → (found : Option Declaration) → option_map (type_over later) meant ≡ type_meant found
        → Gives (type_over later) (source_of typer.now) (known_over later known.new) result (typing.struct_named (setting_of typer.now) (known_over later known.old) span tag found) }
    ensures numbered { IfOk result (IsId known.new.types) }
    ensures shapes { Begins known.old.types.shapes known.new.types.shapes }
{
    match meant {
        Some(kind) => struct_meant(typer, known, span, kind),
        None => {
            let made = new_struct(typer, known, tag)?;
            Ok(made.1)
        }
    }
}

/// The struct that a tag means (6.7.2.3p3).
fn struct_meant(typer: &Typer<'_>, known: &Known, span: Span, kind: TypeId) -> Result<TypeId, Stop>
    requires { IsId known.now.types kind }
    ensures gives { (later : List OneShape) → Begins known.now.types.shapes later → (entry : Declaration) → type_over later kind ≡ entry.kind
        → (tag : Option ℕ) → Gives (type_over later) (source_of typer.now) (known_over later known.now) result (typing.struct_named (setting_of typer.now) (known_over later known.now) span tag (Some entry)) }
    ensures numbered { IfOk result (IsId known.now.types) }
{
    match number_if_struct(known, kind) {
        Some(_) => Ok(kind),
        None => Err(typer.broken(4, span.first)),
    }
}

/// `enum` with a tag alone.
pub fn enum_named(
    typer: &Typer<'_>,
    known: &mut Known,
    span: Span,
    meant: Option<TypeId>,
) -> Result<TypeId, Stop>
    requires kind { IfSome meant (IsId known.old.types) }
    ensures gives { (later : List OneShape) → Begins known.new.types.shapes later → (found : Option Declaration) → option_map (type_over later) meant ≡ type_meant found
        → Gives (type_over later) (source_of typer.now) (known_over later known.new) result (typing.enum_named (known_over later known.old) span found) }
    ensures numbered { IfOk result (IsId known.new.types) }
    ensures grows { Grows known.old known.new }
{
    match meant {
        Some(kind) => {
            if !is_integer(&known.types, kind) {
                return Err(typer.broken(4, span.first));
            }
            let int = known.intern(Shape::Integer(Kind::Int))?;
            Ok(int)
        }
        None => Err(typer.broken(1, span.first)),
    }
}

/// The struct whose members follow: a new one, or that which the tag means in this scope, unless that has its members,
/// is being read, or is an enum.
pub fn struct_begun(
    typer: &Typer<'_>,
    known: &mut Known,
    tag: Option<u32>,
) -> Result<Option<TypeId>, Memory>
    ensures known { OnOk result ((later : List OneShape) → Begins known.new.types.shapes later → known_over later known.new ≡ typing.beginning
        (typing.with_new_struct (setting_of typer.now) (known_over later known.old) tag (typing.tag_inside (setting_of typer.now) (known_over later known.old) tag))
        (typing.struct_begun (known_over later known.old) (typing.tag_inside (setting_of typer.now) (known_over later known.old) tag))) }
    ensures kind { IfOk result (λ begun. (later : List OneShape) → Begins known.new.types.shapes later → option_map (type_over later) begun ≡ struct_at
        (typing.struct_begun (known_over later known.old) (typing.tag_inside (setting_of typer.now) (known_over later known.old) tag))) }
    ensures innermost { IfOk result (λ begun. IfSome begun (IsInnermost known.new)) }
    ensures numbered { IfOk result (λ begun. IfSome begun (IsId known.new.types)) }
    ensures shapes { Begins known.old.types.shapes known.new.types.shapes }
{
    match tag_inside(typer, known, tag)? {
        Some(kind) => {
            let begun = begin_again(known, kind)?;
            Ok(begun)
        }
        None => {
            let (number, kind) = new_struct(typer, known, tag)?;
            begin(known, number)?;
            Ok(Some(kind))
        }
    }
}

/// The struct has its members, unless it takes more bytes than a type may (C5). One without members is none.
pub fn struct_ended(
    typer: &Typer<'_>,
    known: &mut Known,
    span: Span,
    begun: Option<TypeId>,
    members: Members,
) -> Result<TypeId, Stop>
    requires kind { IfSome begun (IsId known.old.types) }
    requires innermost { IfSome begun (IsInnermost known.old) }
    requires members { All (λ member. IsId known.old.types member.kind) members }
    ensures gives { (later : List OneShape) → Begins known.new.types.shapes later → (at : Option ℕ) (outer : List ℕ) → option_map (type_over later) begun ≡ struct_at at
        → IfSome at (λ number. reverse known.old.begun.items ≡ number ∷ outer)
        → Gives (type_over later) (source_of typer.now) (known_over later known.new) result (typing.struct_ended (known_over later known.old) span at outer (fields_over later members)) }
    ensures numbered { IfOk result (IsId known.new.types) }
    ensures shapes { known.new.types.shapes ≡ known.old.types.shapes }
{
    let Some(kind) = begun else {
        return Err(typer.broken(4, span.first));
    };
    let Some(number) = number_if_struct(known, kind) else {
        return Err(typer.broken(4, span.first));
    };
    if members.is_empty() {
        return Err(typer.broken(5, span.first));
    }
    end_struct(known, number, members)?;
    if known.types.size(kind).is_none() {
        return Err(typer.broken(5, span.first));
    }
    Ok(kind)
}

/// An enumerator is declared once in a scope (C2), int can represent its value (C7), and none is called `main` in file
/// scope (C36). The value is there if int can represent it.
fn enumerator_declared(
    typer: &Typer<'_>,
    known: &mut Known,
    at: u32,
    value: Option<i32>,
) -> Result<i32, Stop>
    ensures gives { (later : List OneShape) → Begins known.new.types.shapes later → (number : ℤ) → value ≡ if_int number
        → Gives (λ given. given) (source_of typer.now) (known_over later known.new) result (typing.enumerator_declared (setting_of typer.now) (known_over later known.old) at number) }
    ensures shapes { Begins known.old.types.shapes known.new.types.shapes }
{
    let name = typer.spelling(at)?;
    if known.scopes.is_declared(&name) {
        return Err(typer.broken(2, at));
    }
    let Some(value) = value else {
        return Err(typer.broken(7, at));
    };
    if is_main_in_file(known, &name) {
        return Err(typer.broken(36, at));
    }
    let kind = known.intern(Shape::Integer(Kind::Int))?;
    let key = name.copy()?;
    let entry = Declared {
        name,
        sort: Sort::Enumerator(i128::from(value)),
        kind,
        linkage: Linkage::Absent,
        place: typer.place(at),
    };
    declare(known, &key, entry)?;
    Ok(value)
}

/// An enumerator without a value has one more than the one before.
pub fn enumerator_implied(
    typer: &Typer<'_>,
    known: &mut Known,
    at: u32,
    before: i32,
) -> Result<i32, Stop>
    ensures gives { (later : List OneShape) → Begins known.new.types.shapes later → Gives (λ given. given) (source_of typer.now) (known_over later known.new) result
        (typing.enumerator_declared (setting_of typer.now) (known_over later known.old) at (before +ℤ pos 1)) }
    ensures shapes { Begins known.old.types.shapes known.new.types.shapes }
{
    enumerator_declared(typer, known, at, before.checked_add(1))
}

/// An enumerator with a value, which is an integer constant expression (C7).
pub fn enumerator_valued(
    typer: &Typer<'_>,
    known: &mut Known,
    at: u32,
    here: u32,
    tree: Core,
) -> Result<i32, Stop>
    requires { IsNumbered known.old.types tree }
    ensures gives { (later : List OneShape) → Begins known.new.types.shapes later → Gives (λ given. given) (source_of typer.now) (known_over later known.new) result
        (typing.enumerator_valued (setting_of typer.now) (known_over later known.old) at here (view_over later tree)) }
    ensures shapes { Begins known.old.types.shapes known.new.types.shapes }
{
    let value = int_of(known, &tree);
    if value.is_none() {
        return Err(typer.broken(7, here));
    }
    add_constant(known, tree)?;
    enumerator_declared(typer, known, at, value)
}

/// The struct of a type, if it hasn't its members and they aren't being read.
fn may_have_members(known: &Known, kind: TypeId) -> Option<u32>
    requires { IsId known.now.types kind }
    ensures number { result ≡ option_and_then (typing.may_have_members (seen known.now)) (typing.number_if_struct (type_of known.now.types kind)) }
    ensures new { IfSome result (IsUnopened known.now) }
{
    let number = number_if_struct(known, kind)?;
    if known.types.members(number).is_some() || is_begun(known, number) {
        return None;
    }
    Some(number)
}

/// Whether a number stands in a list.
fn is_among(number: u32, numbers: &[u32]) -> bool
    ensures { result ≡ typing.is_among number numbers.now }
{
    for other in numbers {
        if number == *other {
            return true;
        }
    }
    false
}

/// Whether the name is `main` and stands in file scope.
fn is_main_in_file(known: &Known, name: &Text) -> bool
    ensures { result ≡ (typing.is_file_scope known.now.scopes && bytes_eq name.now (codes "main")) }
{
    known.scopes.depth() == 1 && name.bytes() == b"main".as_slice()
}

/// The value of an integer constant expression that fits int.
fn int_of(known: &Known, tree: &Core) -> Option<i32>
    requires { IsNumbered known.now.types tree.now }
    ensures { (later : List OneShape) → Begins known.now.types.shapes later → result ≡ option_and_then if_int (constant_of (known_over later known.now) (view_over later tree.now)) }
{
    let value = constant(tree, &known.declared, &known.types)?;
    as_int(value)
}

/// The value if it fits int.
fn as_int(value: i128) -> Option<i32>
    ensures { result ≡ if_int value }
{
    i32::try_from(value).ok()
}
