//! What the spelling and the number of initialisers say: which strings find room in an array, and how long an array is.

ghost use Rattle.std.specs.Prelude.{◌≡◌, ◌<◌, List, length, map, IfOk, IfSome, option_map, bytes_eq, codes};
ghost use Rattle.dm_type.specs.declared.shape.Shape.{Shape as OneShape};
ghost use Rattle.dm_type.specs.Tables.{IsId, IsLength, type_of};
ghost use Rattle.dm_syn.specs.Sources.{spelling_at};
ghost use Rattle.dm_syn.specs.Views as syntax;
ghost use Rattle.dm_tree.specs.Initialisers as initialisers;
ghost use Rattle.dm_typing.specs.Views.{Begins, type_over, source_of, setting_of, Grows};
ghost use Rattle.dm_edecl.specs.Initialising as initialising;
ghost use Rattle.dm_einitial.specs.Steps as steps;

use dm_int::Kind;
use dm_syn::{Expr, ExprForm, InitForm, Initialiser};
use dm_token::Memory;
use dm_type::{Shape, TypeId, Types};
use dm_typing::looks::integer_kind;
use dm_typing::{Known, Typer};

/// Whether the kind is that of a character type (6.2.5p15).
pub fn is_character(kind: Option<Kind>) -> bool
    ensures { result ≡ initialisers.is_character kind }
{
    matches!(kind, Some(Kind::Char | Kind::SChar | Kind::UChar))
}

/// The token of an expression that is a string literal.
fn literal_at(expr: &Expr) -> Option<u32>
    ensures { result ≡ steps.literal_at (syntax.expr expr.now) }
{
    match expr.form {
        ExprForm::Literal => Some(expr.span.first),
        _ => None,
    }
}

/// The token of an expression that is a constant.
fn constant_at(expr: &Expr) -> Option<u32>
    ensures { result ≡ steps.constant_at (syntax.expr expr.now) }
{
    match expr.form {
        ExprForm::Constant => Some(expr.span.first),
        _ => None,
    }
}

/// How many bytes the spelling of a token has. Of a string literal it is without the closing 0.
#[tactic(auto, unfolding(dm_syn::specs::Sources::spelling_at))]
fn spelled_bytes(typer: &Typer<'_>, at: u32) -> usize
    ensures bytes { result ≡ length (spelling_at (source_of typer.now) at) }
    ensures most { result < 18446744073709551615 }
{
    match typer.tokens.get(at as usize) {
        Some(token) => token.spelling.bytes().len(),
        None => 0,
    }
}

/// Whether so many bytes find room in an array of characters (6.7.9p14).
fn has_room(types: &Types, bytes: usize, kind: TypeId) -> bool
    requires { IsId types.now kind }
    ensures { result ≡ steps.has_room bytes (type_of types.now kind) }
{
    match types.shape(kind) {
        Shape::Array(inner, Some(n)) => {
            is_character(integer_kind(types, *inner)) && bytes as u64 <= *n
        }
        _ => false,
    }
}

/// Whether the expression is a string literal for an array of characters, in which it fits without its closing 0
/// (6.7.9p14).
pub fn is_string_for(typer: &Typer<'_>, types: &Types, expr: &Expr, kind: TypeId) -> bool
    requires { IsId types.now kind }
    ensures { result ≡ initialising.is_string_for (setting_of typer.now) (syntax.expr expr.now) (type_of types.now kind) }
{
    match literal_at(expr) {
        Some(at) => has_room(types, spelled_bytes(typer, at), kind),
        None => false,
    }
}

/// Whether the token is spelled `0`.
#[tactic(auto, unfolding(dm_syn::specs::Sources::spelling_at))]
fn is_spelled_zero(typer: &Typer<'_>, at: u32) -> bool
    ensures { result ≡ bytes_eq (spelling_at (source_of typer.now) at) (codes "0") }
{
    match typer.tokens.get(at as usize) {
        Some(token) => token.spelling.bytes() == b"0".as_slice(),
        None => false,
    }
}

/// Whether the expression is the token `0`.
pub fn is_zero_token(typer: &Typer<'_>, expr: &Expr) -> bool
    ensures { result ≡ initialising.is_zero_token (setting_of typer.now) (syntax.expr expr.now) }
{
    match constant_at(expr) {
        Some(at) => is_spelled_zero(typer, at),
        None => false,
    }
}

/// How many items a list has.
pub fn count_items(items: &[Initialiser]) -> u64
    ensures { result ≡ initialising.count_items (syntax.initialisers (map syntax.initialiser items.now)) }
{
    items.len() as u64
}

/// How long an array of unknown length becomes by this initialiser, if it does.
fn said_length(typer: &Typer<'_>, initialiser: &Initialiser) -> Option<u64>
    ensures length { result ≡ steps.said_length (setting_of typer.now) (syntax.initialiser initialiser.now) }
    ensures some { IfSome result (λ n. 0 < n) }
{
    match &initialiser.form {
        InitForm::Value(expr) => length_with_end(typer, literal_at(expr)),
        InitForm::Braces { items, .. } => count_if_any(items.items()),
    }
}

/// How many bytes a string literal has with its closing 0, by its token.
fn length_with_end(typer: &Typer<'_>, literal: Option<u32>) -> Option<u64>
    ensures length { result ≡ steps.length_with_end (setting_of typer.now) literal }
    ensures some { IfSome result (λ n. 0 < n) }
{
    match literal {
        Some(at) => Some(spelled_bytes(typer, at) as u64 + 1),
        None => None,
    }
}

/// How many items a list has that has some.
fn count_if_any(items: &[Initialiser]) -> Option<u64>
    ensures length { result ≡ steps.count_if_any (syntax.initialisers (map syntax.initialiser items.now)) }
    ensures some { IfSome result (λ n. 0 < n) }
{
    if items.len() > 0 {
        Some(count_items(items))
    } else {
        None
    }
}

/// The type of the elements of an array of unknown length.
fn unsized_elements(types: &Types, kind: TypeId) -> Option<TypeId>
    requires { IsId types.now kind }
    ensures elements { option_map (type_of types.now) result ≡ steps.unsized_elements (type_of types.now kind) }
    ensures numbered { IfSome result (IsId types.now) }
{
    match types.shape(kind) {
        Shape::Array(inner, None) => Some(*inner),
        _ => None,
    }
}

/// The number of the type of an object that has this initialiser: an array of unknown length is as long as the string
/// or the list (6.7.9p22).
pub fn completed(
    typer: &Typer<'_>,
    known: &mut Known,
    kind: TypeId,
    initialiser: &Initialiser,
) -> Result<TypeId, Memory>
    requires { IsId known.old.types kind }
    ensures kind { IfOk result (λ id. (later : List OneShape) → Begins known.new.types.shapes later → type_over later id ≡ initialising.completed (setting_of typer.now) (type_over later kind) (syntax.initialiser initialiser.now)) }
    ensures numbered { IfOk result (IsId known.new.types) }
    ensures grows { Grows known.old known.new }
{
    match unsized_elements(&known.types, kind) {
        Some(inner) => sized(known, kind, inner, said_length(typer, initialiser)),
        None => Ok(kind),
    }
}

/// An array of these elements that has the length, where there is one.
fn sized(
    known: &mut Known,
    kind: TypeId,
    inner: TypeId,
    length: Option<u64>,
) -> Result<TypeId, Memory>
    requires kind { IsId known.old.types kind }
    requires inner { IsId known.old.types inner }
    requires length { IsLength length }
    ensures kind { IfOk result (λ id. (later : List OneShape) → Begins known.new.types.shapes later → type_over later id ≡ steps.sized (type_over later kind) (type_over later inner) length) }
    ensures numbered { IfOk result (IsId known.new.types) }
    ensures grows { Grows known.old known.new }
{
    if length.is_none() {
        return Ok(kind);
    }
    let made = known.intern(Shape::Array(inner, length))?;
    Ok(made)
}
