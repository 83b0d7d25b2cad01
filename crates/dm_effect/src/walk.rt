//! Questions to all nodes of a tree.

ghost use Rattle.std.specs.Prelude.{◌≡◌, map};
ghost use Rattle.std.specs.List.{list_any};
ghost use Rattle.std.specs.Option.{option_copied, option_map};
ghost use Rattle.dm_type.specs.Tables.{Table};
ghost use Rattle.dm_tree.specs.Paths.{all_in};
ghost use Rattle.dm_tree.specs.Views.{expressions_of_items, expressions_of_locals, if_there, view, view_of_local};
ghost use Rattle.dm_meaning.specs.Wholes.{view_of_initial};
ghost use Rattle.dm_effect.specs.Parts.{parts_in};
ghost use Rattle.dm_effect.specs.Questions.{answer, is_asked};

use crate::declarators::{defines, initialises};
use crate::effect::{Effect, acts, addresses, effect_of, writes};
use crate::functions::is_quiet_at;
use crate::parts::{Parts, parts_of};
use crate::question::Question;
use dm_tree::{Core, Form, Initial, Local};

/// Whether the answer is yes at some node of a tree. Goes down the left operands of commas in a loop, since a comma expression
/// may have any number of parts.
#[cycle(walk)]
pub(crate) fn any_node(tree: &Core, question: Question) -> bool
    ensures { (types : Table) → result ≡ list_any (answer types question.entry) (all_in (view types tree.now)) }
{
    let mut at = tree;
    while let Form::Comma(left, right) = &at.form {
        if answers(at, question) {
            return true;
        }
        if any_node(right.get(), question) {
            return true;
        }
        at = left.get();
    }
    if answers(at, question) {
        return true;
    }
    any_part(parts_of(&at.form), question)
}

/// Whether it is at some node of the parts of a node.
#[cycle(walk)]
fn any_part(parts: Parts, question: Question) -> bool
    ensures { (types : Table) → result ≡ is_asked types question.entry (parts_in types parts.entry) }
{
    if any_optional(parts.first, question) {
        return true;
    }
    if any_optional(parts.second, question) {
        return true;
    }
    if any_optional(parts.third, question) {
        return true;
    }
    if any_optional(parts.fourth, question) {
        return true;
    }
    if any_tree(parts.items, question) {
        return true;
    }
    any_local(parts.locals, question)
}

/// Whether it is at some node of a tree that may be left out.
#[cycle(walk)]
fn any_optional(tree: Option<&Core>, question: Question) -> bool
    ensures { (types : Table) → result ≡ is_asked types question.entry (if_there (option_map (view types) (option_copied tree.entry))) }
{
    match tree {
        Some(tree) => any_node(tree, question),
        None => false,
    }
}

/// Whether it is at some node of some trees.
#[cycle(walk)]
pub(crate) fn any_tree(trees: &[Core], question: Question) -> bool
    ensures { (types : Table) → result ≡ is_asked types question.entry (map (view types) trees.now) }
{
    let mut left = trees;
    while let Some((tree, rest)) = left.split_first() {
        if any_node(tree, question) {
            return true;
        }
        left = rest;
    }
    false
}

/// Whether it is at some node of the initialisers of declarators.
#[cycle(walk)]
pub(crate) fn any_local(locals: &[Local], question: Question) -> bool
    ensures { (types : Table) → result ≡ is_asked types question.entry (expressions_of_locals (map (view_of_local types) locals.now)) }
{
    let mut left = locals;
    while let Some((local, rest)) = left.split_first() {
        if let Some(initial) = &local.initial {
            if in_initial(initial, question) {
                return true;
            }
        }
        left = rest;
    }
    false
}

/// Whether it is at some node of an initialiser.
#[cycle(walk)]
fn in_initial(initial: &Initial, question: Question) -> bool
    ensures { (types : Table) → result ≡ is_asked types question.entry (view_of_initial types initial.now).expressions }
{
    match initial {
        Initial::Value(tree) => any_node(tree.get(), question),
        Initial::Parts(list) => any_initial(list.items(), question),
    }
}

/// Whether it is at some node of some initialisers.
#[cycle(walk)]
fn any_initial(initials: &[Initial], question: Question) -> bool
    ensures { (types : Table) → result ≡ is_asked types question.entry (expressions_of_items (map (view_of_initial types) initials.now)) }
{
    let mut left = initials;
    while let Some((initial, rest)) = left.split_first() {
        if in_initial(initial, question) {
            return true;
        }
        left = rest;
    }
    false
}

/// The answer at a node.
fn answers(node: &Core, question: Question) -> bool
    ensures { (types : Table) → result ≡ answer types question.entry (view types node.now) }
{
    match question {
        Question::Acts => acts(effect_of(node)),
        Question::Writes(object) => writes(node, object),
        Question::Addresses(object) => addresses(node, object),
        Question::Defines(object) => defines(node, object),
        Question::Initialises(object, token) => initialises(node, object, token),
        Question::Disturbs(since, token) => match effect_of(node) {
            Effect::Nothing => false,
            Effect::Disturbs => true,
            Effect::Calls(function) => !is_quiet_at(since, token, function),
        },
    }
}
