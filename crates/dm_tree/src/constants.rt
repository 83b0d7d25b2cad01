ghost use Rattle.std.specs.Prelude.{◌≡◌, length, pos, IsTrue, option_map};
ghost use Rattle.dm_type.specs.Layouts.{size_of};
ghost use Rattle.dm_type.specs.Tables.{IsId, type_of};
ghost use Rattle.dm_tree.specs.Constants as constants;
ghost use Rattle.dm_tree.specs.Opened.{is_constant_view};
ghost use Rattle.dm_tree.specs.TypeNumbers.{are_known, are_known_in_form};
ghost use Rattle.dm_tree.specs.Views.{entries_of, opened_form, view};

use crate::evaluation::{is_nonzero, unary};
use crate::kinds::{in_range, integer_kind, may_stand_right};
use crate::tree::{Core, Form, Sign};
use crate::unit::{Declared, Sort};
use dm_int::{Op, binary, convert};
use dm_token::List;
use dm_type::{TypeId, Types};

/// The value of a tree that is an integer constant expression (6.6). None exactly where the tree is none, or has no
/// value.
pub fn constant(core: &Core, declared: &List<Declared>, types: &Types) -> Option<i128>
    requires { IsTrue (are_known (length types.now.shapes) core.now) }
    ensures { result ≡ constants.constant types.now (entries_of types.now declared.now) (view types.now core.now) }
{
    if has_constant_form(core, types) {
        value(core, declared, types)
    } else {
        None
    }
}

/// Whether the operands and operators of a tree are such as an integer constant expression may have (6.6p3, p6).
#[cycle(constant_form)]
pub fn has_constant_form(core: &Core, types: &Types) -> bool
    requires { IsTrue (are_known (length types.now.shapes) core.now) }
    ensures { result ≡ constants.is_constant_form (view types.now core.now) }
{
    let mut at = core;
    while let Form::Comma(left, right) = &at.form {
        if integer_kind(types, at.kind).is_none() || !has_constant_form(right.get(), types) {
            return false;
        }
        at = left.get();
    }
    integer_kind(types, at.kind).is_some() && parts_have_constant_form(&at.form, types)
}

/// The same of a form alone.
#[cycle(constant_form)]
fn parts_have_constant_form(form: &Form, types: &Types) -> bool
    requires { IsTrue (are_known_in_form (length types.now.shapes) form.now) }
    ensures { result ≡ is_constant_view (opened_form types.now form.now) }
{
    match form {
        Form::Number(_) | Form::Enumerator(_) | Form::SizeofTree(_) | Form::SizeofKind(_, _) => {
            true
        }
        Form::Convert(a, _) | Form::Unary(_, a) => has_constant_form(a.get(), types),
        Form::Binary(_, a, b) => has_constant_form(a.get(), types)
            && has_constant_form(b.get(), types),
        Form::Both(a, b) => has_constant_form(a.get(), types) && has_constant_form(b.get(), types),
        Form::Either(a, b) => has_constant_form(a.get(), types)
            && has_constant_form(b.get(), types),
        Form::Comma(a, b) => has_constant_form(a.get(), types) && has_constant_form(b.get(), types),
        Form::Choose(a, b, c) => {
            let second = b.get();
            let third = c.get();
            has_constant_form(a.get(), types)
                && has_constant_form(second, types)
                && has_constant_form(third, types)
        }
        _ => false,
    }
}

/// The value of a tree of that form, where it has one. Commas are not gone into, since none is evaluated.
#[cycle(constant_value)]
fn value(core: &Core, declared: &List<Declared>, types: &Types) -> Option<i128>
    requires { IsTrue (are_known (length types.now.shapes) core.now) }
    ensures { result ≡ constants.constant_value types.now (entries_of types.now declared.now) (view types.now core.now) }
{
    match &core.form {
        Form::Number(value) => Some(*value),
        Form::Enumerator(at) => enumerator_value(declared, *at, types),
        Form::SizeofTree(operand) => size_value(types, operand.get().kind),
        Form::SizeofKind(kind, _) => size_value(types, *kind),
        Form::Convert(a, _) => converted(types, core.kind, value(a.get(), declared, types)?),
        Form::Unary(sign, a) => signed(
            *sign,
            types,
            a.get().kind,
            value(a.get(), declared, types)?,
        ),
        Form::Binary(op, a, b) => {
            let left = value(a.get(), declared, types)?;
            let right = value(b.get(), declared, types)?;
            operated(*op, types, a.get().kind, left, right)
        }
        Form::Both(a, b) => {
            if is_nonzero(value(a.get(), declared, types)?) {
                Some(i128::from(is_nonzero(value(b.get(), declared, types)?)))
            } else {
                Some(0)
            }
        }
        Form::Either(a, b) => {
            if is_nonzero(value(a.get(), declared, types)?) {
                Some(1)
            } else {
                Some(i128::from(is_nonzero(value(b.get(), declared, types)?)))
            }
        }
        Form::Choose(a, b, c) => {
            if is_nonzero(value(a.get(), declared, types)?) {
                value(b.get(), declared, types)
            } else {
                value(c.get(), declared, types)
            }
        }
        _ => None,
    }
}

/// The value of an enumerator.
fn enumerator_value(declared: &List<Declared>, at: u32, types: &Types) -> Option<i128>
    ensures { result ≡ constants.enumerator_value (entries_of types.now declared.now) at }
{
    // Only the clause speaks of the types.
    let _ = types;
    match declared.items().get(at as usize)?.sort {
        Sort::Enumerator(value) => Some(value),
        _ => None,
    }
}

/// The value of `sizeof` (6.5.3.4).
fn size_value(types: &Types, id: TypeId) -> Option<i128>
    requires { IsId types.now id }
    ensures { result ≡ option_map pos (size_of types.now (type_of types.now id)) }
{
    let size = types.size(id)?;
    Some(i128::from(size))
}

/// The value converted to an integer type.
fn converted(types: &Types, id: TypeId, value: i128) -> Option<i128>
    requires { IsId types.now id }
    ensures { result ≡ constants.converted_to (type_of types.now id) value }
{
    let kind = integer_kind(types, id)?;
    Some(convert(kind, value))
}

/// What a unary operator gives on a value of an integer type.
fn signed(sign: Sign, types: &Types, id: TypeId, value: i128) -> Option<i128>
    requires { IsId types.now id }
    ensures { result ≡ constants.signed_value sign (type_of types.now id) value }
{
    let kind = integer_kind(types, id)?;
    if in_range(kind, value) {
        unary(sign, kind, value).ok()
    } else {
        None
    }
}

/// What a binary operator gives on values of an integer type.
fn operated(op: Op, types: &Types, id: TypeId, left: i128, right: i128) -> Option<i128>
    requires { IsId types.now id }
    ensures { result ≡ constants.operated_value op (type_of types.now id) left right }
{
    let kind = integer_kind(types, id)?;
    if in_range(kind, left) && may_stand_right(op, kind, right) {
        binary(op, kind, left, right).ok()
    } else {
        None
    }
}
