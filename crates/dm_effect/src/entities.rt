//! What the trees of a unit say of its objects.

ghost use Rattle.std.specs.Prelude.{◌≡◌, ◌==◌, map};
ghost use Rattle.std.specs.List.{list_any};
ghost use Rattle.dm_type.specs.Tables.{Table};
ghost use Rattle.dm_tree.specs.Views.{view, view_of_external, view_of_form, view_of_unit};
ghost use Rattle.dm_effect.specs.Entities as entities;
ghost use Rattle.dm_effect.specs.Externals.{at_declarators, is_found};
ghost use Rattle.dm_effect.specs.Safe as safe;
ghost use Rattle.dm_effect.specs.Stable as stable;

use crate::declarators::{any_defines, any_initialises};
use crate::question::Question;
use crate::walk::{any_local, any_node, any_tree};
use dm_tree::{Core, CoreExternal, CoreExternalForm, CoreUnit};

/// Whether a tree neither calls nor stores, also where it isn't evaluated.
pub fn is_pure(tree: &Core) -> bool
    ensures { (types : Table) → result ≡ stable.is_pure (view types tree.now) }
{
    !any_node(tree, Question::Acts)
}

/// Whether the address of an object is taken by its name somewhere in the unit.
pub fn is_addressed(unit: &CoreUnit, object: u32) -> bool
    ensures { (types : Table) → result ≡ entities.is_addressed (view_of_unit types unit.now) object }
{
    any_external(unit.externals.items(), Question::Addresses(object))
}

/// Whether a declarator of the unit defines the object.
pub fn is_defined(unit: &CoreUnit, object: u32) -> bool
    ensures { (types : Table) → result ≡ safe.is_defined (view_of_unit types unit.now) object }
{
    any_external(unit.externals.items(), Question::Defines(object))
}

/// Whether a declarator of the unit initialises the object, outside of whose initialiser an argument stands.
pub fn is_initialised(unit: &CoreUnit, argument: &Core, object: u32) -> bool
    ensures { (types : Table) → result ≡ safe.is_initialised (view_of_unit types unit.now) (view types argument.now) object }
{
    let question = Question::Initialises(object, argument.inner.first);
    any_external(unit.externals.items(), question)
}

/// Whether the object is a parameter of a function that the unit defines.
pub fn is_parameter(unit: &CoreUnit, object: u32) -> bool
    ensures { (types : Table) → result ≡ safe.is_parameter (view_of_unit types unit.now) object }
{
    let mut left = unit.externals.items();
    while let Some((external, rest)) = left.split_first() {
        if has_parameter(&external.form, object) {
            return true;
        }
        left = rest;
    }
    false
}

/// Whether an external declaration defines a function with this parameter.
fn has_parameter(form: &CoreExternalForm, object: u32) -> bool
    ensures { (types : Table) → result ≡ safe.has_parameter object (view_of_form types form.now) }
{
    match form {
        CoreExternalForm::Declaration(_) => false,
        CoreExternalForm::Function {
            function: _,
            parameters,
            body: _,
        } => is_among(parameters.items(), object),
    }
}

/// Whether a number is among others.
fn is_among(numbers: &[u32], one: u32) -> bool
    ensures { result ≡ list_any (λ number. number == one) numbers.now }
{
    numbers.iter().any(|number| *number == one)
}

/// Whether the answer is yes at one of some external declarations.
fn any_external(externals: &[CoreExternal], question: Question) -> bool
    ensures { (types : Table) → result ≡ list_any (is_found types question.entry) (map (view_of_external types) externals.now) }
{
    let mut left = externals;
    while let Some((external, rest)) = left.split_first() {
        if in_external(external, question) {
            return true;
        }
        left = rest;
    }
    false
}

/// Whether it is at a declarator of an external declaration itself, or at a node in it.
fn in_external(external: &CoreExternal, question: Question) -> bool
    ensures { (types : Table) → result ≡ is_found types question.entry (view_of_external types external.now) }
{
    if in_declarators(&external.form, question) {
        return true;
    }
    if any_tree(external.constants.items(), question) {
        return true;
    }
    match &external.form {
        CoreExternalForm::Declaration(locals) => any_local(locals.items(), question),
        CoreExternalForm::Function {
            function: _,
            parameters: _,
            body,
        } => any_node(body, question),
    }
}

/// Whether it is at a declarator of an external declaration itself.
fn in_declarators(form: &CoreExternalForm, question: Question) -> bool
    ensures { (types : Table) → result ≡ at_declarators question.entry (view_of_form types form.now) }
{
    match form {
        CoreExternalForm::Declaration(locals) => match question {
            Question::Defines(object) => any_defines(locals.items(), object),
            Question::Initialises(object, token) => any_initialises(locals.items(), object, token),
            Question::Acts | Question::Writes(_) | Question::Addresses(_) => false,
            Question::Disturbs(_, _) => false,
        },
        CoreExternalForm::Function {
            function: _,
            parameters: _,
            body: _,
        } => false,
    }
}
