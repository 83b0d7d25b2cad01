//! What declarators define and initialise (6.7).

ghost use Rattle.std.specs.Prelude.{◌≡◌, map};
ghost use Rattle.std.specs.List.{list_any};
ghost use Rattle.dm_type.specs.Tables.{Table};
ghost use Rattle.dm_tree.specs.Views.{expressions_of_items, view, view_of_local};
ghost use Rattle.dm_meaning.specs.Wholes.{view_of_initial};
ghost use Rattle.dm_effect.specs.Entities.{locals_here};
ghost use Rattle.dm_effect.specs.Questions.{as_local};
ghost use Rattle.dm_effect.specs.Safe as safe;
ghost use Rattle.dm_effect.specs.Safe.{defines_here, initialises_apart};

use dm_tree::{Core, Form, Initial, Local};

/// Whether a node is a declaration that defines the object.
pub(crate) fn defines(node: &Core, object: u32) -> bool
    ensures { (types : Table) → list_any (defines_here object) (locals_here (view types node.now)) ≡ result }
{
    match &node.form {
        Form::Declare(_, locals) => any_defines(locals.items(), object),
        _ => false,
    }
}

/// Whether one of some declarators defines the object.
pub(crate) fn any_defines(locals: &[Local], object: u32) -> bool
    ensures { (types : Table) → result ≡ list_any (defines_here object) (map as_local (map (view_of_local types) locals.now)) }
{
    let mut left = locals;
    while let Some((local, rest)) = left.split_first() {
        if local_defines(local, object) {
            return true;
        }
        left = rest;
    }
    false
}

/// Whether a declarator defines the object.
fn local_defines(local: &Local, object: u32) -> bool
    ensures { (types : Table) → result ≡ defines_here object (as_local (view_of_local types local.now)) }
{
    local.declared == object && local.defines
}

/// Whether a node is a declaration that initialises the object, and the token stands outside of its initialiser.
pub(crate) fn initialises(node: &Core, object: u32, token: u32) -> bool
    ensures { (types : Table) → list_any (initialises_apart token object) (locals_here (view types node.now)) ≡ result }
{
    match &node.form {
        Form::Declare(_, locals) => any_initialises(locals.items(), object, token),
        _ => false,
    }
}

/// Whether one of some declarators initialises the object so.
pub(crate) fn any_initialises(locals: &[Local], object: u32, token: u32) -> bool
    ensures { (types : Table) → result ≡ list_any (initialises_apart token object) (map as_local (map (view_of_local types) locals.now)) }
{
    let mut left = locals;
    while let Some((local, rest)) = left.split_first() {
        if local_initialises(local, object, token) {
            return true;
        }
        left = rest;
    }
    false
}

/// Whether a declarator initialises the object so.
fn local_initialises(local: &Local, object: u32, token: u32) -> bool
    ensures { (types : Table) → result ≡ initialises_apart token object (as_local (view_of_local types local.now)) }
{
    match &local.initial {
        Some(initial) => local.declared == object && !in_initial(initial, token),
        None => false,
    }
}

/// Whether the token is one of those of an expression in an initialiser.
#[cycle(token)]
fn in_initial(initial: &Initial, token: u32) -> bool
    ensures { (types : Table) → result ≡ list_any (safe.holds token) (view_of_initial types initial.now).expressions }
{
    match initial {
        Initial::Value(tree) => holds(tree.get(), token),
        Initial::Parts(list) => in_initials(list.items(), token),
    }
}

/// Whether it is one of those in some initialisers.
#[cycle(token)]
fn in_initials(initials: &[Initial], token: u32) -> bool
    ensures { (types : Table) → result ≡ list_any (safe.holds token) (expressions_of_items (map (view_of_initial types) initials.now)) }
{
    let mut left = initials;
    while let Some((initial, rest)) = left.split_first() {
        if in_initial(initial, token) {
            return true;
        }
        left = rest;
    }
    false
}

/// Whether the token is one of those of the tree, with all parentheses round it.
fn holds(tree: &Core, token: u32) -> bool
    ensures { (types : Table) → result ≡ safe.holds token (view types tree.now) }
{
    tree.outer.first <= token && token < tree.outer.after
}
