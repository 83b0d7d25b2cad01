//! What trees do to objects, noted in one walk.

ghost use Rattle.std.specs.Prelude.{◌≡◌, map, option_map};
ghost use Rattle.std.specs.Option.{option_copied};
ghost use Rattle.dm_type.specs.Tables.{Table};
ghost use Rattle.dm_tree.specs.Paths.{all_in, all_in_trees};
ghost use Rattle.dm_tree.specs.Trees.{trees};
ghost use Rattle.dm_tree.specs.Views.{expressions_of_items, expressions_of_locals, if_there, view, view_of_local};
ghost use Rattle.dm_meaning.specs.Wholes.{view_of_initial};
ghost use Rattle.dm_effect.specs.Parts.{parts_in};
ghost use Rattle.dm_stable.specs.Marks.{Deed, Notes, marks_of};

use crate::marks::{Marks, note_node};
use dm_effect::{Parts, parts_of};
use dm_tree::{Core, Form, Initial, Local};

/// What the nodes of a tree do. Goes down the left operands of commas in a loop, since a comma expression may have any number of parts.
#[cycle(marking)]
pub(crate) fn note_tree(tree: &Core, marks: &mut Marks)
    ensures { (types : Table) (deed : Deed) → Notes deed (all_in (view types tree.now)) (marks_of deed marks.old) (marks_of deed marks.new) }
{
    let mut at = tree;
    while let Form::Comma(left, right) = &at.form {
        note_node(at, marks);
        note_tree(right.get(), marks);
        at = left.get();
    }
    note_node(at, marks);
    note_parts(parts_of(&at.form), marks);
}

/// What those of the parts of a node do.
#[cycle(marking)]
fn note_parts(parts: Parts, marks: &mut Marks)
    ensures { (types : Table) (deed : Deed) → Notes deed (all_in_trees (trees (parts_in types parts.entry))) (marks_of deed marks.old) (marks_of deed marks.new) }
{
    note_part(parts.first, marks);
    note_part(parts.second, marks);
    note_part(parts.third, marks);
    note_part(parts.fourth, marks);
    note_trees(parts.items, marks);
    note_initials_of(parts.locals, marks);
}

/// What those of a part do, if it is there.
#[cycle(marking)]
fn note_part(part: Option<&Core>, marks: &mut Marks)
    ensures { (types : Table) (deed : Deed) → Notes deed (all_in_trees (trees (if_there (option_map (view types) (option_copied part.entry))))) (marks_of deed marks.old) (marks_of deed marks.new) }
{
    match part {
        Some(tree) => note_tree(tree, marks),
        None => {}
    }
}

/// What those of some trees do.
#[cycle(marking)]
pub(crate) fn note_trees(all: &[Core], marks: &mut Marks)
    ensures { (types : Table) (deed : Deed) → Notes deed (all_in_trees (trees (map (view types) all.now))) (marks_of deed marks.old) (marks_of deed marks.new) }
{
    let mut left = all;
    while let Some((tree, rest)) = left.split_first() {
        note_tree(tree, marks);
        left = rest;
    }
}

/// What those of the initialisers of declarators do.
#[cycle(marking)]
pub(crate) fn note_initials_of(locals: &[Local], marks: &mut Marks)
    ensures { (types : Table) (deed : Deed) → Notes deed (all_in_trees (trees (expressions_of_locals (map (view_of_local types) locals.now)))) (marks_of deed marks.old) (marks_of deed marks.new) }
{
    let mut left = locals;
    while let Some((local, rest)) = left.split_first() {
        note_initial_of(local, marks);
        left = rest;
    }
}

/// What those of the initialiser of a declarator do, if it has one.
#[cycle(marking)]
fn note_initial_of(local: &Local, marks: &mut Marks)
    ensures { (types : Table) (deed : Deed) → Notes deed (all_in_trees (trees (view_of_local types local.now).expressions)) (marks_of deed marks.old) (marks_of deed marks.new) }
{
    match &local.initial {
        Some(initial) => note_initial(initial, marks),
        None => {}
    }
}

/// What those of an initialiser do.
#[cycle(marking)]
fn note_initial(initial: &Initial, marks: &mut Marks)
    ensures { (types : Table) (deed : Deed) → Notes deed (all_in_trees (trees (view_of_initial types initial.now).expressions)) (marks_of deed marks.old) (marks_of deed marks.new) }
{
    match initial {
        Initial::Value(tree) => note_tree(tree.get(), marks),
        Initial::Parts(list) => note_initials(list.items(), marks),
    }
}

/// What those of some initialisers do.
#[cycle(marking)]
fn note_initials(initials: &[Initial], marks: &mut Marks)
    ensures { (types : Table) (deed : Deed) → Notes deed (all_in_trees (trees (expressions_of_items (map (view_of_initial types) initials.now)))) (marks_of deed marks.old) (marks_of deed marks.new) }
{
    let mut left = initials;
    while let Some((initial, rest)) = left.split_first() {
        note_initial(initial, marks);
        left = rest;
    }
}
