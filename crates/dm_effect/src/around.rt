//! What stands at a place of an expression and beside it.

ghost use Rattle.std.specs.Prelude.{◌≡◌, ℕ, ◌&&◌, ◌==◌, not};
ghost use Rattle.std.specs.List.{filter_map, list_any};
ghost use Rattle.dm_type.specs.Tables.{Table};
ghost use Rattle.dm_tree.specs.Paths.{tree_in};
ghost use Rattle.dm_tree.specs.Trees.{trees_of};
ghost use Rattle.dm_tree.specs.Views.{view};
ghost use Rattle.dm_effect.specs.Doubts.{is_doubted, is_doubted_beside};
ghost use Rattle.dm_effect.specs.Entities as entities;
ghost use Rattle.dm_effect.specs.Operands.{others_by};
ghost use Rattle.dm_effect.specs.Sequencing.{around};

use crate::parts::part;
use crate::question::Question;
use crate::sequencing::Path;
use crate::unsequenced::{last_operand, previous};
use crate::walk::any_node;
use dm_tree::Core;

/// What is asked of a tree that stands at a place or beside it.
#[derive(Clone, Copy)]
pub(crate) enum Doubt<'a> {
    /// Whether it stores in the object of this number by its name.
    Writes(u32),
    /// Whether it isn't quiet, where it is told from which token on each function is.
    Disturbs(&'a [Option<u32>]),
}

/// Whether what stands at a place, or an operand that is unsequenced to it, stores in the object by its name.
pub fn is_written_around(full: &Core, at: &Path, object: u32) -> bool
    ensures { (types : Table) → result ≡ list_any (entities.writes object) (around at.now (view types full.now)) }
{
    any_around(full, at, Doubt::Writes(object))
}

/// Whether the answer is yes for what stands at a place, or for an operand that is unsequenced to it.
pub(crate) fn any_around(full: &Core, at: &Path, doubt: Doubt) -> bool
    ensures { (types : Table) → result ≡ list_any (is_doubted types doubt.entry) (around at.now (view types full.now)) }
{
    let mut tree = full;
    let mut left = at.items();
    while let Some((number, rest)) = left.split_first() {
        if any_other(tree, *number, last_operand(tree), doubt) {
            return true;
        }
        match part(tree, *number) {
            Some(next) => tree = next,
            None => return false,
        }
        left = rest;
    }
    doubts(tree, doubt)
}

/// Whether it is for one of the other operands of a node, the last of which has this number.
fn any_other(tree: &Core, number: usize, last: Option<usize>, doubt: Doubt) -> bool
    ensures { (types : Table) → result ≡ is_doubted_beside types doubt.entry (view types tree.now) (others_by number last) }
{
    let mut left = last;
    while let Some(operand) = left {
        if doubts_other(tree, number, operand, doubt) {
            return true;
        }
        left = previous(operand);
    }
    false
}

/// Whether it is for an operand, if that is another one.
fn doubts_other(tree: &Core, number: usize, operand: usize, doubt: Doubt) -> bool
    ensures { (types : Table) → result ≡ (not (operand == number) && entities.passes (is_doubted types doubt.entry) (tree_in (trees_of (view types tree.now)) operand)) }
{
    if operand == number {
        return false;
    }
    match part(tree, operand) {
        Some(other) => doubts(other, doubt),
        None => false,
    }
}

/// The answer for a tree.
fn doubts(tree: &Core, doubt: Doubt) -> bool
    ensures { (types : Table) → result ≡ is_doubted types doubt.entry (view types tree.now) }
{
    match doubt {
        Doubt::Writes(object) => any_node(tree, Question::Writes(object)),
        Doubt::Disturbs(since) => any_node(tree, Question::Disturbs(since, tree.inner.first)),
    }
}
