//! Integer constant expressions, with a value or without (6.6).

ghost use Rattle.std.specs.Prelude.{◌≡◌, pos, false, IsTrue, List as Sequence, Some, option_map, option_and_then, if◌then◌else◌, ◌||◌, ◌&&◌};
ghost use Rattle.dm_type.specs.declared.shape.Shape.{Shape as OneShape};
ghost use Rattle.dm_type.specs.Layouts.{size_of};
ghost use Rattle.dm_type.specs.Tables.{IsId, type_of};
ghost use Rattle.dm_tree.specs.Constants as constants;
ghost use Rattle.dm_tree.specs.Evaluation.{is_true};
ghost use Rattle.dm_tree.specs.Views.{entries_of, view};
ghost use Rattle.dm_typing.specs.Fitting.{IsNumbered};
ghost use Rattle.dm_typing.specs.Views.{Begins, seen, view_over, known_over};
ghost use Rattle.dm_edecl.specs.Initialising as initialising;

use dm_int::{Kind, Op, binary, convert};
use dm_tree::{
    Core, Form, Sign, Sort, has_constant_form, in_range, is_nonzero, may_stand_right, unary,
};
use dm_type::{TypeId, Types};
use dm_typing::Known;
use dm_typing::looks::integer_kind;

/// What the evaluation of a tree comes to.
#[derive(Clone, Copy)]
struct Evaluated {
    /// Its value, if it has one.
    value: Option<i128>,
    /// Whether a comma stands in a part of it that is evaluated.
    comma: bool,
}

/// Whether the tree is an integer constant expression, with a value or without: none of its parts that are evaluated is a
/// comma (6.6p3, p6).
pub fn is_constant_expression(known: &Known, core: &Core) -> bool
    requires { IsNumbered known.now.types core.now }
    ensures { (later : Sequence OneShape) → Begins known.now.types.shapes later → result ≡ initialising.is_constant_expression (known_over later known.now) (view_over later core.now) }
{
    if has_constant_form(core, &known.types) {
        !evaluate(known, core).comma
    } else {
        false
    }
}

/// The value of a tree that has the form of a constant expression, and whether it evaluates a comma, from those of its
/// parts. Each part is looked at once, and none below a comma.
#[cycle(evaluate)]
fn evaluate(known: &Known, core: &Core) -> Evaluated
    requires numbered { IsNumbered known.now.types core.now }
    requires form { IsTrue (constants.is_constant_form (view known.now.types core.now)) }
    ensures value { result.value ≡ constants.constant_value known.now.types (entries_of known.now.types known.now.declared) (view known.now.types core.now) }
    ensures comma { result.comma ≡ initialising.has_comma (seen known.now) (view known.now.types core.now) }
{
    match &core.form {
        Form::Comma(_, _) => Evaluated {
            value: None,
            comma: true,
        },
        Form::Convert(a, _) => converted(&known.types, core.kind, evaluate(known, a.get())),
        Form::Unary(sign, a) => {
            signed(*sign, &known.types, a.get().kind, evaluate(known, a.get()))
        }
        Form::Binary(op, a, b) => {
            let left = evaluate(known, a.get());
            let right = evaluate(known, b.get());
            operated(*op, &known.types, a.get().kind, left, right)
        }
        Form::Both(a, b) => both(evaluate(known, a.get()), evaluate(known, b.get())),
        Form::Either(a, b) => either(evaluate(known, a.get()), evaluate(known, b.get())),
        Form::Choose(a, b, c) => {
            let condition = evaluate(known, a.get());
            let first = evaluate(known, b.get());
            let second = evaluate(known, c.get());
            chosen(condition, first, second)
        }
        Form::Number(value) => plain(Some(*value)),
        Form::Enumerator(at) => plain(enumerator_value(known, *at)),
        Form::SizeofTree(operand) => plain(size_value(&known.types, operand.get().kind)),
        Form::SizeofKind(kind, _) => plain(size_value(&known.types, *kind)),
        _ => plain(None),
    }
}

/// A value without a comma.
fn plain(value: Option<i128>) -> Evaluated
    ensures value { result.value ≡ value }
    ensures comma { result.comma ≡ false }
{
    Evaluated {
        value,
        comma: false,
    }
}

/// The value of an enumerator.
fn enumerator_value(known: &Known, at: u32) -> Option<i128>
    ensures { result ≡ constants.enumerator_value (entries_of known.now.types known.now.declared) at }
{
    match known.declared.items().get(at as usize)?.sort {
        Sort::Enumerator(value) => Some(value),
        _ => None,
    }
}

/// The value of `sizeof` (6.5.3.4).
fn size_value(types: &Types, id: TypeId) -> Option<i128>
    requires { IsId types.now id }
    ensures { result ≡ option_map pos (size_of types.now (type_of types.now id)) }
{
    let size = types.size(id)?;
    Some(i128::from(size))
}

/// What is converted to an integer type.
fn converted(types: &Types, id: TypeId, operand: Evaluated) -> Evaluated
    requires { IsId types.now id }
    ensures value { result.value ≡ option_and_then (constants.converted_to (type_of types.now id)) operand.value }
    ensures comma { result.comma ≡ operand.comma }
{
    Evaluated {
        value: converted_value(types, id, operand.value),
        comma: operand.comma,
    }
}

fn converted_value(types: &Types, id: TypeId, value: Option<i128>) -> Option<i128>
    requires { IsId types.now id }
    ensures { result ≡ option_and_then (constants.converted_to (type_of types.now id)) value }
{
    let value = value?;
    let kind = integer_kind(types, id)?;
    Some(convert(kind, value))
}

/// A unary operator on an operand of an integer type.
fn signed(sign: Sign, types: &Types, id: TypeId, operand: Evaluated) -> Evaluated
    requires { IsId types.now id }
    ensures value { result.value ≡ option_and_then (constants.signed_value sign (type_of types.now id)) operand.value }
    ensures comma { result.comma ≡ operand.comma }
{
    Evaluated {
        value: signed_value(sign, types, id, operand.value),
        comma: operand.comma,
    }
}

fn signed_value(sign: Sign, types: &Types, id: TypeId, value: Option<i128>) -> Option<i128>
    requires { IsId types.now id }
    ensures { result ≡ option_and_then (constants.signed_value sign (type_of types.now id)) value }
{
    let value = value?;
    let kind = integer_kind(types, id)?;
    if in_range(kind, value) {
        unary(sign, kind, value).ok()
    } else {
        None
    }
}

/// A binary operator on operands, the left of an integer type.
fn operated(op: Op, types: &Types, id: TypeId, left: Evaluated, right: Evaluated) -> Evaluated
    requires { IsId types.now id }
    ensures value { result.value ≡ option_and_then (λ x. option_and_then (constants.operated_value op (type_of types.now id) x) right.value) left.value }
    ensures comma { result.comma ≡ (left.comma || right.comma) }
{
    Evaluated {
        value: operated_value(op, types, id, left.value, right.value),
        comma: left.comma || right.comma,
    }
}

fn operated_value(
    op: Op,
    types: &Types,
    id: TypeId,
    left: Option<i128>,
    right: Option<i128>,
) -> Option<i128>
    requires { IsId types.now id }
    ensures { result ≡ option_and_then (λ x. option_and_then (constants.operated_value op (type_of types.now id) x) right) left }
{
    let left = left?;
    let right = right?;
    let kind = integer_kind(types, id)?;
    if in_range(kind, left) && may_stand_right(op, kind, right) {
        binary(op, kind, left, right).ok()
    } else {
        None
    }
}

/// `&&`, whose second operand is evaluated if the first is true (6.5.13p4).
fn both(first: Evaluated, second: Evaluated) -> Evaluated
    ensures value { result.value ≡ option_and_then (λ x. if is_true x then option_map constants.truth_of second.value else Some (pos 0)) first.value }
    ensures comma { result.comma ≡ (first.comma || initialising.is_nonzero first.value && second.comma) }
{
    match first.value {
        Some(value) => {
            if is_nonzero(value) {
                Evaluated {
                    value: truth_of(second.value),
                    comma: first.comma || second.comma,
                }
            } else {
                Evaluated {
                    value: Some(0),
                    comma: first.comma,
                }
            }
        }
        None => first,
    }
}

/// `||`, whose second operand is evaluated if the first is false (6.5.14p4).
fn either(first: Evaluated, second: Evaluated) -> Evaluated
    ensures value { result.value ≡ option_and_then (λ x. if is_true x then Some (pos 1) else option_map constants.truth_of second.value) first.value }
    ensures comma { result.comma ≡ (first.comma || initialising.is_zero first.value && second.comma) }
{
    match first.value {
        Some(value) => {
            if is_nonzero(value) {
                Evaluated {
                    value: Some(1),
                    comma: first.comma,
                }
            } else {
                Evaluated {
                    value: truth_of(second.value),
                    comma: first.comma || second.comma,
                }
            }
        }
        None => first,
    }
}

/// `?:`, of whose last operands one is evaluated (6.5.15p4).
fn chosen(condition: Evaluated, first: Evaluated, second: Evaluated) -> Evaluated
    ensures value { result.value ≡ option_and_then (λ x. if is_true x then first.value else second.value) condition.value }
    ensures comma { result.comma ≡ (condition.comma || initialising.is_nonzero condition.value && first.comma || initialising.is_zero condition.value && second.comma) }
{
    match condition.value {
        Some(value) => with_comma(
            condition.comma,
            if is_nonzero(value) { first } else { second },
        ),
        None => condition,
    }
}

/// The same, where a comma may stand before it.
fn with_comma(comma: bool, it: Evaluated) -> Evaluated
    ensures value { result.value ≡ it.value }
    ensures comma { result.comma ≡ (comma || it.comma) }
{
    Evaluated {
        value: it.value,
        comma: comma || it.comma,
    }
}

/// 1 or 0, as a value is unequal to 0 or not.
fn truth_of(value: Option<i128>) -> Option<i128>
    ensures { result ≡ option_map constants.truth_of value }
{
    let value = value?;
    Some(i128::from(is_nonzero(value)))
}
