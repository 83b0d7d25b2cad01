ghost use Rattle.std.specs.Prelude.{◌≡◌, ℕ, ◌&&◌, nat_lt, IfOk, IsTrue, length};
ghost use Rattle.dm_int.specs.Kinds.{InRange};
ghost use Rattle.dm_int.specs.Operators.{IsRight};
ghost use Rattle.dm_type.specs.Tables.{IsId};
ghost use Rattle.dm_tree.specs.TypeNumbers.{are_known, are_known_in_form};

use dm_int::{Fault, Kind, Op};
use dm_token::{Boxed, List, Memory, Place, Span};
use dm_tree::{Core, Form, Sign, constant, counted, is_nonzero, unary, updated};
use dm_type::{Shape, TypeId, Types};
use std::alloc::Global;
use std::process::Abort;
use std::test::Fail;

/// A node at the start of a file.
fn node(form: Form, kind: TypeId) -> Core
    ensures { (n : ℕ) → are_known n result ≡ (nat_lt kind n && are_known_in_form n form) }
{
    let span = Span { first: 0, after: 1 };
    let place = Place {
        file: 0,
        byte: 0,
        line: 1,
        column: 1,
    };
    Core {
        form,
        kind,
        inner: span,
        outer: span,
        place,
    }
}

#[test]
fn a_comma_of_half_a_million_parts_is_dropped(rt: HostRuntime) -> Result<(), Fail> {
    let mut types = Types::new(rt.alloc())?;
    let int = types.intern(Shape::Integer(Kind::Int))?;
    let mut tree = node(Form::Number(0), int);
    for _part in 0..500000u32 {
        let last = Boxed::new(rt.alloc(), node(Form::Number(1), int))?;
        let first = Boxed::new(rt.alloc(), tree)?;
        tree = node(Form::Comma(first, last), int);
    }
    drop(tree);
    Ok(())
}

/// Checks what a unary operator gives.
fn expect_unary(rt: &impl Abort, sign: Sign, kind: Kind, value: i128, wanted: Result<i128, Fault>)
    requires { InRange kind value }
{
    assert_eq!(rt; unary(sign, kind, value), wanted, "{sign:?} on {value}");
}

/// Checks what a compound assignment stores.
fn expect_updated(
    rt: &impl Abort,
    op: Op,
    works: Kind,
    kind: Kind,
    left: i128,
    right: i128,
    wanted: Result<i128, Fault>,
)
    requires { IsRight op works right }
{
    assert_eq!(rt;
        updated(op, works, kind, left, right),
        wanted,
        "{op:?} on {left}"
    );
}

/// Checks what `++` or `--` stores.
fn expect_counted(
    rt: &impl Abort,
    plus: bool,
    kind: Kind,
    value: i128,
    wanted: Result<i128, Fault>,
) {
    assert_eq!(rt; counted(plus, kind, value), wanted, "{plus} on {value}");
}

#[test]
fn operators_give_what_the_standard_says(rt: HostRuntime) -> Result<(), Fail> {
    expect_unary(
        &rt,
        Sign::Minus,
        Kind::Int,
        -2147483648,
        Err(Fault::Overflow),
    );
    expect_unary(&rt, Sign::Minus, Kind::UInt, 1, Ok(4294967295));
    expect_unary(&rt, Sign::Complement, Kind::Int, 5, Ok(-6));
    expect_unary(&rt, Sign::Not, Kind::Long, -3, Ok(0));
    expect_unary(&rt, Sign::Plus, Kind::Int, 7, Ok(7));
    expect_updated(&rt, Op::Shl, Kind::Int, Kind::Char, 1, 7, Ok(-128));
    expect_updated(&rt, Op::Add, Kind::Int, Kind::UChar, 255, 1, Ok(0));
    expect_updated(&rt, Op::Div, Kind::Int, Kind::Int, 7, 0, Err(Fault::Zero));
    expect_counted(&rt, true, Kind::Short, 32767, Ok(-32768));
    expect_counted(&rt, true, Kind::Int, 2147483647, Err(Fault::Overflow));
    expect_counted(&rt, false, Kind::Bool, 0, Ok(1));
    expect_counted(&rt, false, Kind::UInt, 0, Ok(4294967295));
    assert!(rt; is_nonzero(-1));
    assert!(rt; !is_nonzero(0));
    Ok(())
}

/// A constant of a type.
fn number(types: &Types, kind: TypeId, value: i128) -> Core
    requires { IsId types.now kind }
    ensures { IsTrue (are_known (length types.now.shapes) result) }
{
    // The clauses alone speak of the types.
    let _ = types;
    node(Form::Number(value), kind)
}

/// An operator on two trees.
fn operation(
    alloc: Global,
    types: &Types,
    op: Op,
    left: Core,
    right: Core,
    kind: TypeId,
) -> Result<Core, Memory>
    requires kind { IsId types.now kind }
    requires left { IsTrue (are_known (length types.now.shapes) left) }
    requires right { IsTrue (are_known (length types.now.shapes) right) }
    ensures { IfOk result (λ tree. IsTrue (are_known (length types.now.shapes) tree)) }
{
    // The clauses alone speak of the types.
    let _ = types;
    let left = Boxed::new(alloc, left)?;
    let right = Boxed::new(alloc, right)?;
    Ok(node(Form::Binary(op, left, right), kind))
}

/// The value of a constant expression, where nothing is declared.
fn value_of(alloc: Global, tree: &Core, types: &Types) -> Option<i128>
    requires { IsTrue (are_known (length types.now.shapes) tree.now) }
{
    let none = List::new(alloc);
    constant(tree, &none, types)
}

/// The value of an operator on two numbers.
fn value_on(
    alloc: Global,
    types: &Types,
    op: Op,
    left: i128,
    right: i128,
    kind: TypeId,
) -> Result<Option<i128>, Memory>
    requires { IsId types.now kind }
{
    let left = number(types, kind, left);
    let right = number(types, kind, right);
    let tree = operation(alloc, types, op, left, right, kind)?;
    Ok(value_of(alloc, &tree, types))
}

/// Checks the value of an operator on two numbers.
fn expect_value<R: Abort + AllocGlobal>(
    rt: &R,
    op: Op,
    left: i128,
    right: i128,
    wanted: Option<i128>,
) -> Result<(), Fail> {
    let mut types = Types::new(rt.alloc())?;
    let int = types.intern(Shape::Integer(Kind::Int))?;
    let value = value_on(rt.alloc(), &types, op, left, right, int)?;
    assert_eq!(rt; value, wanted, "{op:?}");
    Ok(())
}

#[test]
fn a_constant_expression_has_a_value_unless_it_is_undefined(rt: HostRuntime) -> Result<(), Fail> {
    expect_value(&rt, Op::Mul, 3, 4, Some(12))?;
    expect_value(&rt, Op::Div, 1, 0, None)?;
    expect_value(&rt, Op::Shl, 1, 32, None)
}

/// A comma with one part more.
fn followed(alloc: Global, types: &Types, tree: Core, kind: TypeId) -> Result<Core, Memory>
    requires kind { IsId types.now kind }
    requires tree { IsTrue (are_known (length types.now.shapes) tree) }
    ensures { IfOk result (λ all. IsTrue (are_known (length types.now.shapes) all)) }
{
    let left = Boxed::new(alloc, tree)?;
    let right = Boxed::new(alloc, number(types, kind, 1))?;
    Ok(node(Form::Comma(left, right), kind))
}

/// A comma expression with so many parts behind the first.
fn commas(alloc: Global, types: &Types, kind: TypeId, parts: u32) -> Result<Core, Memory>
    requires { IsId types.now kind }
    ensures { IfOk result (λ tree. IsTrue (are_known (length types.now.shapes) tree)) }
{
    let mut tree = number(types, kind, 0);
    for _part in 0..parts {
        tree = followed(alloc, types, tree, kind)?;
    }
    Ok(tree)
}

/// A choice between two trees.
fn choice(
    alloc: Global,
    types: &Types,
    first: Core,
    second: Core,
    third: Core,
    kind: TypeId,
) -> Result<Core, Memory>
    requires kind { IsId types.now kind }
    requires first { IsTrue (are_known (length types.now.shapes) first) }
    requires second { IsTrue (are_known (length types.now.shapes) second) }
    requires third { IsTrue (are_known (length types.now.shapes) third) }
    ensures { IfOk result (λ tree. IsTrue (are_known (length types.now.shapes) tree)) }
{
    // The clauses alone speak of the types.
    let _ = types;
    let first = Boxed::new(alloc, first)?;
    let second = Boxed::new(alloc, second)?;
    let third = Boxed::new(alloc, third)?;
    Ok(node(Form::Choose(first, second, third), kind))
}

#[test]
fn a_long_comma_is_constant_where_it_is_not_evaluated(rt: HostRuntime) -> Result<(), Fail> {
    let mut types = Types::new(rt.alloc())?;
    let int = types.intern(Shape::Integer(Kind::Int))?;
    let parts = commas(rt.alloc(), &types, int, 200000)?;
    assert_eq!(rt; value_of(rt.alloc(), &parts, &types), None);
    let (first, second) = (number(&types, int, 1), number(&types, int, 2));
    let skipped = choice(rt.alloc(), &types, first, second, parts, int)?;
    assert_eq!(rt; value_of(rt.alloc(), &skipped, &types), Some(2));
    Ok(())
}
