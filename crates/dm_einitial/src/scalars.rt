//! Initialisers of one expression.

ghost use Rattle.std.specs.Prelude.{◌≡◌, ℕ, List, IfOk, not, ◌||◌};
ghost use Rattle.dm_type.specs.declared.shape.Shape.{Shape as OneShape};
ghost use Rattle.dm_type.specs.Tables.{IsId};
ghost use Rattle.dm_syn.specs.Views as syntax;
ghost use Rattle.dm_tree.specs.TypeNumbers.{are_known};
ghost use Rattle.dm_typing.specs.Conversions.{as_value};
ghost use Rattle.dm_typing.specs.Fitting.{IsNumbered};
ghost use Rattle.dm_typing.specs.Views.{Begins, type_over, view_over, known_over, source_of, setting_of, Gives, Grows};
ghost use Rattle.dm_edecl.specs.Initialising as initialising;
ghost use Rattle.dm_einitial.specs.Steps as steps;
ghost use Rattle.dm_einitial.specs.Steps.{initial_over, are_known_in_initial, InitialFits, first_over, FirstFits};

use crate::addresses::is_address_constant;
use crate::constants::is_constant_expression;
use crate::lengths::is_string_for;
use crate::parts::First;
use dm_ebinary::assignments::is_assignable;
use dm_syn::Expr;
use dm_token::{List, Memory, Stop};
use dm_tree::{Core, Initial, constant};
use dm_type::TypeId;
use dm_typing::looks::is_scalar;
use dm_typing::values::is_null;
use dm_typing::{Known, Typer};

/// Whether the value may initialise an object with static storage (6.7.9p4): it is an integer constant expression, a null
/// pointer constant or an address constant.
pub fn is_static_value(known: &Known, value: &Core) -> bool
    requires { IsNumbered known.now.types value.now }
    ensures { (later : List OneShape) → Begins known.now.types.shapes later → result ≡ initialising.is_static_value (known_over later known.now) (view_over later value.now) }
{
    if is_constant_expression(known, value) {
        return true;
    }
    if is_null(known, value) {
        return true;
    }
    is_address_constant(known, value)
}

/// Whether a tree that is an integer constant expression has a value.
pub fn has_value(known: &Known, value: &Core) -> bool
    requires { IsNumbered known.now.types value.now }
    ensures { (later : List OneShape) → Begins known.now.types.shapes later → result ≡ initialising.has_value (known_over later known.now) (view_over later value.now) }
{
    if is_constant_expression(known, value) {
        constant(value, &known.declared, &known.types).is_some()
    } else {
        true
    }
}

/// Whether the value may initialise an object, which has static storage or not.
fn is_static_if(known: &Known, fixed: bool, value: &Core) -> bool
    requires { IsNumbered known.now.types value.now }
    ensures { (later : List OneShape) → Begins known.now.types.shapes later → result ≡ (not fixed || initialising.is_static_value (known_over later known.now) (view_over later value.now)) }
{
    if fixed {
        is_static_value(known, value)
    } else {
        true
    }
}

/// Whether a value for an object that has static storage has a value if it is a constant expression.
fn has_value_if(known: &Known, fixed: bool, value: &Core) -> bool
    requires { IsNumbered known.now.types value.now }
    ensures { (later : List OneShape) → Begins known.now.types.shapes later → result ≡ (not fixed || initialising.has_value (known_over later known.now) (view_over later value.now)) }
{
    if fixed { has_value(known, value) } else { true }
}

/// Which rule a value breaks first that is to initialise a scalar, if it breaks one (C8, C28, C30).
fn broken_rule(known: &Known, fixed: bool, kind: TypeId, value: &Core) -> Option<u8>
    requires kind { IsId known.now.types kind }
    requires value { IsNumbered known.now.types value.now }
    ensures { (later : List OneShape) → Begins known.now.types.shapes later → result ≡ steps.scalar_rule (known_over later known.now) fixed (type_over later kind) (view_over later value.now) }
{
    if !is_static_if(known, fixed, value) {
        return Some(8);
    }
    if !is_assignable(known, value, kind) {
        return Some(28);
    }
    if !has_value_if(known, fixed, value) {
        return Some(30);
    }
    None
}

/// The value of a scalar, as if by assignment (6.7.9p11).
fn scalar_value(
    typer: &Typer<'_>,
    known: &Known,
    fixed: bool,
    kind: TypeId,
    here: u32,
    value: Core,
) -> Result<Core, Stop>
    requires kind { IsId known.now.types kind }
    requires value { IsNumbered known.now.types value }
    ensures gives { (later : List OneShape) → Begins known.now.types.shapes later → Gives (view_over later) (source_of typer.now) (known_over later known.now) result
        (steps.scalar_value (known_over later known.now) fixed (type_over later kind) here (view_over later value)) }
    ensures numbered { IfOk result (IsNumbered known.now.types) }
{
    match broken_rule(known, fixed, kind, &value) {
        Some(rule) => Err(typer.broken(rule, here)),
        None => {
            let made = typer.as_type(known, kind, value)?;
            Ok(made)
        }
    }
}

/// An initialiser that is one expression.
fn single(typer: &Typer<'_>, tree: Core) -> Result<Initial, Memory>
    ensures view { IfOk result (λ initial. (later : List OneShape) → initial_over later initial ≡ initialising.single (view_over later tree)) }
    ensures known { IfOk result (λ initial. (n : ℕ) → are_known_in_initial n initial ≡ are_known n tree) }
{
    let boxed = typer.boxed(tree)?;
    Ok(Initial::Value(boxed))
}

/// An initialiser in braces of its own.
fn enclosed(typer: &Typer<'_>, initial: Initial) -> Result<Initial, Memory>
    ensures view { IfOk result (λ made. (later : List OneShape) → initial_over later made ≡ steps.alone_in_braces (initial_over later initial)) }
    ensures known { IfOk result (λ made. (n : ℕ) → are_known_in_initial n made ≡ are_known_in_initial n initial) }
{
    let mut items = List::new(typer.alloc);
    items.push(initial)?;
    Ok(Initial::Parts(items))
}

/// An expression in so many braces.
fn braced(typer: &Typer<'_>, depth: u32, tree: Core) -> Result<Initial, Memory>
    ensures view { IfOk result (λ made. (later : List OneShape) → initial_over later made ≡ initialising.braced depth (initialising.single (view_over later tree))) }
    ensures known { IfOk result (λ made. (n : ℕ) → are_known_in_initial n made ≡ are_known n tree) }
{
    let mut whole = single(typer, tree)?;
    let mut braces = 0;
    while braces < depth {
        let made = enclosed(typer, whole)?;
        whole = made;
        braces += 1;
    }
    Ok(whole)
}

/// An expression that initialises a scalar (C8, C28, C30).
pub fn scalar_initialised(
    typer: &Typer<'_>,
    known: &Known,
    fixed: bool,
    kind: TypeId,
    here: u32,
    value: Core,
) -> Result<Initial, Stop>
    requires kind { IsId known.now.types kind }
    requires value { IsNumbered known.now.types value }
    ensures gives { (later : List OneShape) → Begins known.now.types.shapes later → Gives (initial_over later) (source_of typer.now) (known_over later known.now) result
        (initialising.scalar_initialised (known_over later known.now) fixed (type_over later kind) here (view_over later value)) }
    ensures numbered { IfOk result (InitialFits known.now.types) }
{
    let made = scalar_value(typer, known, fixed, kind, here, value)?;
    let initial = single(typer, made)?;
    Ok(initial)
}

/// The value of an expression that initialises a scalar.
pub fn scalar_by(
    typer: &Typer<'_>,
    known: &mut Known,
    fixed: bool,
    kind: TypeId,
    here: u32,
    tree: Core,
) -> Result<Initial, Stop>
    requires kind { IsId known.old.types kind }
    requires tree { IsNumbered known.old.types tree }
    ensures gives { (later : List OneShape) → Begins known.new.types.shapes later → Gives (initial_over later) (source_of typer.now) (known_over later known.new) result
        (initialising.scalar_initialised (known_over later known.old) fixed (type_over later kind) here (as_value (view_over later tree))) }
    ensures numbered { IfOk result (InitialFits known.new.types) }
    ensures grows { Grows known.old known.new }
{
    let value = typer.as_value(known, tree)?;
    scalar_initialised(typer, known, fixed, kind, here, value)
}

/// One expression that initialises an object: a scalar, or an array of characters by a string literal (C8, C28, C30).
pub fn initialised_by(
    typer: &Typer<'_>,
    known: &mut Known,
    fixed: bool,
    kind: TypeId,
    here: u32,
    expr: &Expr,
    tree: Core,
) -> Result<Initial, Stop>
    requires kind { IsId known.old.types kind }
    requires tree { IsNumbered known.old.types tree }
    ensures gives { (later : List OneShape) → Begins known.new.types.shapes later → Gives (initial_over later) (source_of typer.now) (known_over later known.new) result
        (initialising.initialised_by (setting_of typer.now) (known_over later known.old) fixed (type_over later kind) here (syntax.expr expr.now) (view_over later tree)) }
    ensures numbered { IfOk result (InitialFits known.new.types) }
    ensures grows { Grows known.old known.new }
{
    if is_scalar(&known.types, kind) {
        return scalar_by(typer, known, fixed, kind, here, tree);
    }
    if !is_string_for(typer, &known.types, expr, kind) {
        return Err(typer.broken(8, here));
    }
    let initial = single(typer, tree)?;
    Ok(initial)
}

/// The 0 of `{0}`, which initialises the scalar that stands first, as if inner braces stood (6.7.9p20).
pub fn zero_initialised(
    typer: &Typer<'_>,
    known: &mut Known,
    fixed: bool,
    first: First,
    here: u32,
    tree: Core,
) -> Result<Initial, Stop>
    requires first { FirstFits known.old.types first }
    requires tree { IsNumbered known.old.types tree }
    ensures gives { (later : List OneShape) → Begins known.new.types.shapes later → Gives (initial_over later) (source_of typer.now) (known_over later known.new) result
        (initialising.zero_initialised (known_over later known.old) fixed (first_over later first) here (as_value (view_over later tree))) }
    ensures numbered { IfOk result (InitialFits known.new.types) }
    ensures grows { Grows known.old known.new }
{
    let value = typer.as_value(known, tree)?;
    let made = scalar_value(typer, known, fixed, first.kind, here, value)?;
    let initial = braced(typer, first.depth, made)?;
    Ok(initial)
}
