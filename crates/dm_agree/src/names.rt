//! Trees that are the name of what a number declares, or read it.

ghost use Rattle.std.specs.Prelude.{◌≡◌, ◌↔◌, IsTrue, Some, length, slice_get};
ghost use Rattle.dm_type.specs.Tables.{Table};
ghost use Rattle.dm_tree.specs.Trees as label;
ghost use Rattle.dm_tree.specs.Trees.{Trees, no_trees, more_trees, kind_of, label_of, trees_of};
ghost use Rattle.dm_tree.specs.TypeNumbers.{are_known};
ghost use Rattle.dm_tree.specs.Views.{view};
ghost use Rattle.dm_effect.specs.Entities.{function_first, object_first};
ghost use Rattle.dm_agree.specs.Agreement.{IsReadOf};

use crate::comparison::Comparison;
use dm_tree::{Core, Form};

/// Whether a tree is the enumerator of this number.
pub(crate) fn is_enumerator(tree: &Core, number: u32) -> bool
    ensures { (types : Table) → IsTrue result ↔ ((label_of (view types tree.now) ≡ label.enumerator number) × (trees_of (view types tree.now) ≡ no_trees)) }
{
    match &tree.form {
        Form::Enumerator(at) => *at == number,
        _ => false,
    }
}

/// Whether a tree is the name of the function of this number.
pub(crate) fn is_function(tree: &Core, number: u32) -> bool
    ensures { (types : Table) (rest : Trees) → IsTrue result ↔ (function_first (more_trees (view types tree.now) rest) ≡ Some number) }
{
    match &tree.form {
        Form::Function(at) => *at == number,
        _ => false,
    }
}

/// Whether a tree is the name of the object of this number.
fn is_object(tree: &Core, number: u32) -> bool
    ensures { (types : Table) (rest : Trees) → IsTrue result ↔ (object_first (more_trees (view types tree.now) rest) ≡ Some number) }
{
    match &tree.form {
        Form::Object(at) => *at == number,
        _ => false,
    }
}

/// Whether a tree reads the object of this number.
pub(crate) fn is_read_of(tree: &Core, number: u32) -> bool
    ensures { (types : Table) → IsTrue result ↔ ((label_of (view types tree.now) ≡ label.read) × (object_first (trees_of (view types tree.now)) ≡ Some number)) }
{
    match &tree.form {
        Form::Read(operand) => is_object(operand.get(), number),
        _ => false,
    }
}

/// Whether a new tree reads the parameter that has this position among some, with the type of an old tree.
pub(crate) fn reads_parameter(
    it: &Comparison,
    parameters: &[u32],
    position: u32,
    new: &Core,
    old: &Core,
) -> bool
    requires new { IsTrue (are_known (length it.now.new_types.now.shapes) new.now) }
    requires old { IsTrue (are_known (length it.now.old_types.now.shapes) old.now) }
    ensures { IsTrue result ↔ IsReadOf (slice_get parameters.now position) (label_of (view it.now.new_types.now new.now)) (kind_of (view it.now.new_types.now new.now))
        (trees_of (view it.now.new_types.now new.now)) (view it.now.old_types.now old.now) }
{
    match parameters.get(position as usize) {
        Some(number) => is_read_of(new, *number) && it.is_same_kind(new, old),
        None => false,
    }
}
