//! Operators between two operands (6.5.5 to 6.5.14).

ghost use Rattle.std.specs.Prelude.{◌≡◌, ◌&&◌, List, IfOk, IfSome, Some, option_map, option_and_then};
ghost use Rattle.dm_type.specs.CTypes.{integer};
ghost use Rattle.dm_type.specs.declared.shape.Shape.{Shape as OneShape};
ghost use Rattle.dm_type.specs.Tables.{Table, type_of, IsId};
ghost use Rattle.dm_syn.specs.Sources.{symbol_at};
ghost use Rattle.dm_tree.specs.Trees.{Tree};
ghost use Rattle.dm_tree.specs.Operands as operands;
ghost use Rattle.dm_tree.specs.Scenes as scenes;
ghost use Rattle.dm_typing.specs.Fitting.{IsNumbered};
ghost use Rattle.dm_typing.specs.Operators as operators;
ghost use Rattle.dm_typing.specs.Operators.{row_at};
ghost use Rattle.dm_typing.specs.Rules as rules;
ghost use Rattle.dm_typing.specs.Typing as typing;
ghost use Rattle.dm_typing.specs.Views.{Begins, seen, type_over, view_over, known_over, source_of, setting_of, Gives, Grows};
ghost use Rattle.dm_ebinary.specs.Pairs as pairs;
ghost use Rattle.dm_ebinary.specs.Pairs.{pair_by, IsWay};

use crate::ways::{Sides, Way, as_type_if, both_kinds, sides_of};
use dm_int::{Kind, Op};
use dm_spell::punctuator;
use dm_syn::Symbol;
use dm_token::{Memory, Stop};
use dm_tree::Core;
use dm_type::{Shape, TypeId, Types};
use dm_typing::access::indexed;
use dm_typing::looks::{is_integer, is_pointer, is_void_pointer, point_alike, points_to_complete};
use dm_typing::values::is_null;
use dm_typing::{Extent, Known, Typer};

/// What an operator may do with operands that aren't both integers.
#[derive(Clone, Copy)]
pub(crate) enum Family {
    /// A pointer is moved (6.5.6p2).
    Sum,
    /// A pointer is moved back, or two have a distance (6.5.6p3).
    Difference,
    /// Two pointers are ordered (6.5.8p2).
    Order,
    /// Two pointers are equal or not (6.5.9p2).
    Equality,
    /// Nothing.
    Integers,
}

/// Which of two pointers that are compared is converted to the type of the other (6.5.9p5).
#[derive(Clone, Copy)]
pub(crate) enum Brought {
    Neither,
    Left,
    Right,
}

/// The operator of a punctuator (6.5.5 to 6.5.12).
fn operator_of_row(row: u16) -> Option<Op>
    ensures { result ≡ operators.operator_of_row row }
{
    match row {
        punctuator::STAR => Some(Op::Mul),
        punctuator::SLASH => Some(Op::Div),
        punctuator::PERCENT => Some(Op::Rem),
        punctuator::PLUS => Some(Op::Add),
        punctuator::MINUS => Some(Op::Sub),
        punctuator::LEFT_SHIFT => Some(Op::Shl),
        punctuator::RIGHT_SHIFT => Some(Op::Shr),
        punctuator::LESS => Some(Op::Less),
        punctuator::GREATER => Some(Op::Greater),
        punctuator::LESS_EQUAL => Some(Op::LessEq),
        punctuator::GREATER_EQUAL => Some(Op::GreaterEq),
        punctuator::EQUAL_EQUAL => Some(Op::Equal),
        punctuator::NOT_EQUAL => Some(Op::NotEqual),
        punctuator::AMPERSAND => Some(Op::And),
        punctuator::CARET => Some(Op::Xor),
        punctuator::BAR => Some(Op::Or),
        _ => None,
    }
}

/// The rule of an operator.
fn rule_of(op: Op) -> u8
    ensures { result ≡ rules.rule_of op }
{
    match op {
        Op::Mul | Op::Div | Op::Rem => 19,
        Op::Add => 20,
        Op::Sub => 21,
        Op::Shl | Op::Shr => 22,
        Op::Less | Op::Greater | Op::LessEq | Op::GreaterEq => 23,
        Op::Equal | Op::NotEqual => 24,
        Op::And | Op::Xor | Op::Or => 25,
    }
}

/// Whether the operator is a relation or an equality (6.5.8, 6.5.9).
fn is_comparison(op: Op) -> bool
    ensures { result ≡ operands.is_comparison op }
{
    matches!(
        op,
        Op::Less | Op::Greater | Op::LessEq | Op::GreaterEq | Op::Equal | Op::NotEqual
    )
}

/// The kind of what an operator gives on operands of a kind: int for a comparison.
fn result_kind(op: Op, kind: Kind) -> Kind
    ensures { integer result ≡ operands.result_type op kind }
{
    if is_comparison(op) { Kind::Int } else { kind }
}

/// What an operator may do with operands that aren't both integers.
fn family_of(op: Op) -> Family
    ensures { result ≡ pairs.family_of op }
{
    match op {
        Op::Add => Family::Sum,
        Op::Sub => Family::Difference,
        Op::Less | Op::Greater | Op::LessEq | Op::GreaterEq => Family::Order,
        Op::Equal | Op::NotEqual => Family::Equality,
        Op::Mul | Op::Div | Op::Rem | Op::Shl | Op::Shr | Op::And | Op::Xor | Op::Or => {
            Family::Integers
        }
    }
}

/// Whether the first type is that of pointers to a complete object type, and the second an integer type.
fn moves_by(known: &Known, pointer: TypeId, other: TypeId) -> bool
    requires pointer { IsId known.now.types pointer }
    requires other { IsId known.now.types other }
    ensures { result ≡ pairs.moves_by (seen known.now) (type_of known.now.types pointer) (type_of known.now.types other) }
{
    points_to_complete(known, pointer) && is_integer(&known.types, other)
}

/// Whether the types are those of pointers to compatible complete object types.
fn have_distance(known: &Known, a: TypeId, b: TypeId) -> bool
    requires left { IsId known.now.types a }
    requires right { IsId known.now.types b }
    ensures { result ≡ pairs.have_distance (seen known.now) (type_of known.now.types a) (type_of known.now.types b) }
{
    points_to_complete(known, a) && points_to_complete(known, b) && point_alike(&known.types, a, b)
}

/// Whether the first type is that of pointers to void, and the second that of pointers.
fn is_void_beside(types: &Types, a: TypeId, b: TypeId) -> bool
    requires left { IsId types.now a }
    requires right { IsId types.now b }
    ensures { result ≡ (rules.is_void_pointer (type_of types.now a) && scenes.is_pointer (type_of types.now b)) }
{
    is_void_pointer(types, a) && is_pointer(types, b)
}

/// Whether the first type is that of pointers, and the second that of pointers to void.
fn is_beside_void(types: &Types, a: TypeId, b: TypeId) -> bool
    requires left { IsId types.now a }
    requires right { IsId types.now b }
    ensures { result ≡ (scenes.is_pointer (type_of types.now a) && rules.is_void_pointer (type_of types.now b)) }
{
    is_pointer(types, a) && is_void_pointer(types, b)
}

/// Whether the type is that of pointers, and the tree a null pointer constant.
fn is_beside_null(known: &Known, pointer: TypeId, tree: &Core) -> bool
    requires pointer { IsId known.now.types pointer }
    requires tree { IsNumbered known.now.types tree.now }
    ensures { (later : List OneShape) → Begins known.now.types.shapes later → result ≡ pairs.is_beside_null (known_over later known.now) (type_of known.now.types pointer) (view_over later tree.now) }
{
    if is_pointer(&known.types, pointer) {
        is_null(known, tree)
    } else {
        false
    }
}

/// Which of two pointers that are compared is converted to the type of the other, if they may be compared (6.5.9p2, p5).
fn equal_by(known: &Known, a: &Core, b: &Core) -> Option<Brought>
    requires left { IsNumbered known.now.types a.now }
    requires right { IsNumbered known.now.types b.now }
    ensures { (later : List OneShape) → Begins known.now.types.shapes later → result ≡ pairs.equal_by (known_over later known.now) (view_over later a.now) (view_over later b.now) }
{
    if point_alike(&known.types, a.kind, b.kind) {
        return Some(Brought::Neither);
    }
    if is_beside_null(known, a.kind, b) {
        return Some(Brought::Right);
    }
    if is_beside_null(known, b.kind, a) {
        return Some(Brought::Left);
    }
    if is_void_beside(&known.types, a.kind, b.kind) {
        return Some(Brought::Right);
    }
    if is_beside_void(&known.types, a.kind, b.kind) {
        return Some(Brought::Left);
    }
    None
}

/// `+`: a pointer to a complete object type and an integer (C20).
fn added(known: &Known, a: &Core, b: &Core) -> Option<Way>
    requires left { IsNumbered known.now.types a.now }
    requires right { IsNumbered known.now.types b.now }
    ensures way { (later : List OneShape) → Begins known.now.types.shapes later → option_map (pair_by later (view_over later a.now) (view_over later b.now)) result ≡ pairs.by_family (known_over later known.now) (view_over later a.now) (view_over later b.now) Family.Sum }
    ensures numbered { IfSome result (IsWay known.now.types) }
{
    match indexed(known, a.kind, b.kind) {
        Some(found) => Some(as_they_are(found.0)),
        None => None,
    }
}

/// Two operands that aren't converted.
fn as_they_are(kind: TypeId) -> Way
    ensures way { (later : List OneShape) → (a b : Tree) → pair_by later a b result ≡ rules.pair a b (type_over later kind) }
    ensures numbered { (types : Table) → IsId types kind → IsWay types result }
{
    Way {
        left: None,
        right: None,
        kind,
    }
}

/// Two operands that aren't converted, and an integer type of the whole.
fn of_kind(known: &mut Known, kind: Kind) -> Result<Way, Memory>
    ensures way { IfOk result (λ way. (later : List OneShape) → Begins known.new.types.shapes later → (a b : Tree) → pair_by later a b way ≡ rules.pair a b (integer kind)) }
    ensures numbered { IfOk result (IsWay known.new.types) }
    ensures grows { Grows known.old known.new }
{
    let whole = known.intern(Shape::Integer(kind))?;
    Ok(as_they_are(whole))
}

/// `-`: a pointer to a complete object type and an integer, or two such pointers to compatible types (C21).
fn subtracted(known: &mut Known, a: &Core, b: &Core) -> Result<Option<Way>, Memory>
    requires left { IsNumbered known.old.types a.now }
    requires right { IsNumbered known.old.types b.now }
    ensures way { IfOk result (λ found. (later : List OneShape) → Begins known.new.types.shapes later → option_map (pair_by later (view_over later a.now) (view_over later b.now)) found ≡ pairs.by_family (known_over later known.old) (view_over later a.now) (view_over later b.now) Family.Difference) }
    ensures numbered { IfOk result (λ found. IfSome found (IsWay known.new.types)) }
    ensures grows { Grows known.old known.new }
{
    if moves_by(known, a.kind, b.kind) {
        return Ok(Some(as_they_are(a.kind)));
    }
    if !have_distance(known, a.kind, b.kind) {
        return Ok(None);
    }
    let way = of_kind(known, Kind::Long)?;
    Ok(Some(way))
}

/// Pointers to compatible types are ordered (C23).
fn ordered(known: &mut Known, a: &Core, b: &Core) -> Result<Option<Way>, Memory>
    requires left { IsNumbered known.old.types a.now }
    requires right { IsNumbered known.old.types b.now }
    ensures way { IfOk result (λ found. (later : List OneShape) → Begins known.new.types.shapes later → option_map (pair_by later (view_over later a.now) (view_over later b.now)) found ≡ rules.ordered (view_over later a.now) (view_over later b.now)) }
    ensures numbered { IfOk result (λ found. IfSome found (IsWay known.new.types)) }
    ensures grows { Grows known.old known.new }
{
    if !point_alike(&known.types, a.kind, b.kind) {
        return Ok(None);
    }
    let way = of_kind(known, Kind::Int)?;
    Ok(Some(way))
}

/// Pointers are equal or not also where one points to void or is a null pointer constant (C24).
fn equated(known: &mut Known, a: &Core, b: &Core) -> Result<Option<Way>, Memory>
    requires left { IsNumbered known.old.types a.now }
    requires right { IsNumbered known.old.types b.now }
    ensures way { IfOk result (λ found. (later : List OneShape) → Begins known.new.types.shapes later → option_map (pair_by later (view_over later a.now) (view_over later b.now)) found ≡ rules.equated (known_over later known.old) (view_over later a.now) (view_over later b.now)) }
    ensures numbered { IfOk result (λ found. IfSome found (IsWay known.new.types)) }
    ensures grows { Grows known.old known.new }
{
    match equal_by(known, a, b) {
        Some(brought) => {
            let way = compared(known, brought, a, b)?;
            Ok(Some(way))
        }
        None => Ok(None),
    }
}

/// Two pointers of which one is converted to the type of the other.
fn compared(known: &mut Known, brought: Brought, a: &Core, b: &Core) -> Result<Way, Memory>
    requires left { IsNumbered known.old.types a.now }
    requires right { IsNumbered known.old.types b.now }
    ensures way { IfOk result (λ way. (later : List OneShape) → Begins known.new.types.shapes later → pair_by later (view_over later a.now) (view_over later b.now) way ≡ pairs.equated_by (view_over later a.now) (view_over later b.now) brought) }
    ensures numbered { IfOk result (IsWay known.new.types) }
    ensures grows { Grows known.old known.new }
{
    let kind = known.intern(Shape::Integer(Kind::Int))?;
    Ok(compared_as(brought, a.kind, b.kind, kind))
}

/// The types to which two pointers are converted, by that of the whole.
fn compared_as(brought: Brought, a: TypeId, b: TypeId, kind: TypeId) -> Way
    ensures { result ≡ pairs.compared_as brought a b kind }
{
    match brought {
        Brought::Neither => Way {
            left: None,
            right: None,
            kind,
        },
        Brought::Right => Way {
            left: None,
            right: Some(a),
            kind,
        },
        Brought::Left => Way {
            left: Some(b),
            right: None,
            kind,
        },
    }
}

/// Two integers after the usual arithmetic conversions (6.3.1.8), or those of a shift.
fn of_integers(known: &mut Known, op: Op, kinds: Sides) -> Result<Way, Memory>
    ensures way { IfOk result (λ way. (later : List OneShape) → Begins known.new.types.shapes later → (a b : Tree) → pair_by later a b way ≡ rules.of_integers op kinds.left kinds.right a b) }
    ensures numbered { IfOk result (IsWay known.new.types) }
    ensures grows { Grows known.old known.new }
{
    let works = sides_of(op, kinds);
    let left = known.intern(Shape::Integer(works.left))?;
    let right = known.intern(Shape::Integer(works.right))?;
    let kind = known.intern(Shape::Integer(result_kind(op, works.left)))?;
    Ok(Way {
        left: Some(left),
        right: Some(right),
        kind,
    })
}

/// Operands that aren't both integers.
fn of_others(known: &mut Known, op: Op, a: &Core, b: &Core) -> Result<Option<Way>, Memory>
    requires left { IsNumbered known.old.types a.now }
    requires right { IsNumbered known.old.types b.now }
    ensures way { IfOk result (λ found. (later : List OneShape) → Begins known.new.types.shapes later → option_map (pair_by later (view_over later a.now) (view_over later b.now)) found ≡ rules.of_others (known_over later known.old) op (view_over later a.now) (view_over later b.now)) }
    ensures numbered { IfOk result (λ found. IfSome found (IsWay known.new.types)) }
    ensures grows { Grows known.old known.new }
{
    match family_of(op) {
        Family::Sum => Ok(added(known, a, b)),
        Family::Difference => {
            let found = subtracted(known, a, b)?;
            Ok(found)
        }
        Family::Order => {
            let found = ordered(known, a, b)?;
            Ok(found)
        }
        Family::Equality => {
            let found = equated(known, a, b)?;
            Ok(found)
        }
        Family::Integers => Ok(None),
    }
}

/// How the operands of an operator come together (C19 to C25).
fn operated(known: &mut Known, op: Op, a: &Core, b: &Core) -> Result<Option<Way>, Memory>
    requires left { IsNumbered known.old.types a.now }
    requires right { IsNumbered known.old.types b.now }
    ensures way { IfOk result (λ found. (later : List OneShape) → Begins known.new.types.shapes later → option_map (pair_by later (view_over later a.now) (view_over later b.now)) found ≡ rules.operated (known_over later known.old) op (view_over later a.now) (view_over later b.now)) }
    ensures numbered { IfOk result (λ found. IfSome found (IsWay known.new.types)) }
    ensures grows { Grows known.old known.new }
{
    match both_kinds(&known.types, a.kind, b.kind) {
        Some(kinds) => {
            let way = of_integers(known, op, kinds)?;
            Ok(Some(way))
        }
        None => {
            let found = of_others(known, op, a, b)?;
            Ok(found)
        }
    }
}

/// An operator between two operands by its symbol (C19 to C26).
pub fn typed_binary(
    typer: &Typer<'_>,
    known: &mut Known,
    at: Extent,
    operator: u32,
    a: Core,
    b: Core,
) -> Result<Core, Stop>
    requires left { IsNumbered known.old.types a }
    requires right { IsNumbered known.old.types b }
    ensures gives { (later : List OneShape) → Begins known.new.types.shapes later → Gives (view_over later) (source_of typer.now) (known_over later known.new) result
        (typing.typed_binary (setting_of typer.now) (known_over later known.old) at operator (view_over later a) (view_over later b) (symbol_at (source_of typer.now) operator)) }
    ensures numbered { IfOk result (IsNumbered known.new.types) }
    ensures grows { Grows known.old known.new }
{
    match typer.symbol(operator) {
        Symbol::And => typer.typed_both(known, at, a, b),
        Symbol::Or => typer.typed_either(known, at, a, b),
        _ => match operator_at(typer, operator) {
            Some(op) => typed_operator(typer, known, at, op, a, b),
            None => Err(typer.broken(19, at.inner.first)),
        },
    }
}

/// The operator of a token between two operands.
fn operator_at(typer: &Typer<'_>, operator: u32) -> Option<Op>
    ensures { result ≡ option_and_then operators.operator_of_row (row_at (source_of typer.now) operator) }
{
    match typer.row(operator) {
        Some(row) => operator_of_row(row),
        None => None,
    }
}

/// An operator on values (C19 to C25).
fn typed_operator(
    typer: &Typer<'_>,
    known: &mut Known,
    at: Extent,
    op: Op,
    a: Core,
    b: Core,
) -> Result<Core, Stop>
    requires left { IsNumbered known.old.types a }
    requires right { IsNumbered known.old.types b }
    ensures gives { (later : List OneShape) → Begins known.new.types.shapes later → Gives (view_over later) (source_of typer.now) (known_over later known.new) result
        (typing.typed_operation (setting_of typer.now) (known_over later known.old) at (view_over later a) (view_over later b) (Some op)) }
    ensures numbered { IfOk result (IsNumbered known.new.types) }
    ensures grows { Grows known.old known.new }
{
    let found = operated(known, op, &a, &b)?;
    match found {
        Some(way) => {
            let made = joined(typer, known, at, op, way, a, b)?;
            Ok(made)
        }
        None => Err(typer.broken(rule_of(op), at.inner.first)),
    }
}

/// The node of an operator on its operands after their conversions.
fn joined(
    typer: &Typer<'_>,
    known: &Known,
    at: Extent,
    op: Op,
    way: Way,
    a: Core,
    b: Core,
) -> Result<Core, Memory>
    requires left { IsNumbered known.now.types a }
    requires right { IsNumbered known.now.types b }
    requires way { IsWay known.now.types way }
    ensures view { IfOk result (λ made. (later : List OneShape) → Begins known.now.types.shapes later → view_over later made ≡ pairs.operation (source_of typer.now) at op (pair_by later (view_over later a) (view_over later b) way)) }
    ensures numbered { IfOk result (IsNumbered known.now.types) }
{
    let left = as_type_if(typer, known, way.left, a)?;
    let right = as_type_if(typer, known, way.right, b)?;
    let made = typer.binary(at, op, left, right, way.kind)?;
    Ok(made)
}
