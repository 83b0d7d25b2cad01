//! Arguments whose evaluation can't be undefined.

ghost use Rattle.std.specs.Prelude.{◌≡◌, length, IsTrue};
ghost use Rattle.std.specs.List.{list_all};
ghost use Rattle.dm_type.specs.Tables.{IsId, type_of};
ghost use Rattle.dm_tree.specs.TypeNumbers.{are_known, are_known_in_form, entry_has_known};
ghost use Rattle.dm_tree.specs.Views.{opened_form, view, view_of_unit};
ghost use Rattle.dm_effect.specs.Forms.{is_built};
ghost use Rattle.dm_effect.specs.Safe as safe;
ghost use Rattle.dm_effect.specs.Safe.{safe_rule};
ghost use Rattle.dm_stable.specs.Built.{is_built_form};

use crate::kinds::{is_integer, is_safe_operator, is_safe_sign};
use crate::names::{Names, passes};
use crate::objects::Objects;
use crate::set::{Known, Set};
use dm_tree::{Core, CoreUnit, Form, constant};
use dm_type::{TypeId, Types};

/// Whether an argument that stands in the unit is an integer constant expression with a value (6.6), or made of reads of integers that
/// have a value there by operators that can't go wrong. Looks through the unit once for each read.
pub fn safe(unit: &CoreUnit, types: &Types, argument: &Core) -> bool
    requires entries { IsTrue (list_all (entry_has_known (length types.now.shapes)) unit.now.declared) }
    requires argument { IsTrue (are_known (length types.now.shapes) argument.now) }
    ensures { result ≡ safe.is_safe types.now (view_of_unit types.now unit.now) (view types.now argument.now) }
{
    let set = Set {
        unit,
        types,
        argument,
    };
    constant(argument, &unit.declared, types).is_some() || has_safe_form(argument, types, &set)
}

/// Whether it is, in the unit of which it is known what its trees do to its objects.
pub fn is_safe(objects: &Objects, types: &Types, argument: &Core) -> bool
    requires entries { IsTrue (list_all (entry_has_known (length types.now.shapes)) objects.now.declared) }
    requires argument { IsTrue (are_known (length types.now.shapes) argument.now) }
    ensures { result ≡ safe.is_safe types.now (view_of_unit types.now objects.now) (view types.now argument.now) }
{
    let unit = objects.unit();
    let set = Known {
        unit,
        objects,
        types,
        argument,
    };
    constant(argument, &unit.declared, types).is_some() || has_safe_form(argument, types, &set)
}

/// Whether a tree is made of integer constants and reads of whole objects that pass, by operators that can't go wrong. Goes down the
/// left operands of commas in a loop, since a comma expression may have any number of parts.
#[cycle(safe_form)]
pub fn has_safe_form<N: Names>(tree: &Core, types: &Types, names: &N) -> bool
    requires { IsTrue (are_known (length types.now.shapes) tree.now) }
    ensures { result ≡ is_built (safe_rule (N.test names.now)) (view types.now tree.now) }
{
    let mut at = tree;
    while let Form::Comma(left, right) = &at.form {
        if !has_safe_form(right.get(), types, names) {
            return false;
        }
        at = left.get();
    }
    form_is_safe(&at.form, at.kind, types, names)
}

/// The same of a form alone, where the node has this type.
#[cycle(safe_form)]
fn form_is_safe<N: Names>(form: &Form, kind: TypeId, types: &Types, names: &N) -> bool
    requires form { IsTrue (are_known_in_form (length types.now.shapes) form.now) }
    requires kind { IsId types.now kind }
    ensures { result ≡ is_built_form (safe_rule (N.test names.now)) (type_of types.now kind) (opened_form types.now form.now) }
{
    match form {
        Form::Number(_) | Form::Enumerator(_) => true,
        Form::Read(a) => passes(a.get(), names),
        Form::Convert(a, _) => {
            let operand = a.get();
            is_integer(types, kind)
                && is_integer(types, operand.kind)
                && has_safe_form(operand, types, names)
        }
        Form::Unary(sign, a) => is_safe_sign(*sign) && has_safe_form(a.get(), types, names),
        Form::Binary(op, a, b) => {
            if !is_safe_operator(types, *op, kind) {
                return false;
            }
            has_safe_form(a.get(), types, names) && has_safe_form(b.get(), types, names)
        }
        Form::Both(a, b) => {
            has_safe_form(a.get(), types, names) && has_safe_form(b.get(), types, names)
        }
        Form::Either(a, b) => {
            has_safe_form(a.get(), types, names) && has_safe_form(b.get(), types, names)
        }
        Form::Comma(a, b) => {
            has_safe_form(a.get(), types, names) && has_safe_form(b.get(), types, names)
        }
        Form::Choose(a, b, c) => {
            let second = b.get();
            let third = c.get();
            if !has_safe_form(a.get(), types, names) {
                return false;
            }
            has_safe_form(second, types, names) && has_safe_form(third, types, names)
        }
        _ => false,
    }
}
