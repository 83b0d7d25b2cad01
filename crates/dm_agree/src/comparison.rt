//! What the trees of two units are compared by.

ghost use Rattle.std.specs.Prelude.{◌≡◌, ◌↔◌, IsTrue, length};
ghost use Rattle.dm_tree.specs.Trees.{kind_of, label_of};
ghost use Rattle.dm_tree.specs.TypeNumbers.{are_known};
ghost use Rattle.dm_tree.specs.Views.{view};
ghost use Rattle.dm_agree.specs.Agreement.{SameNode};
ghost use Rattle.dm_agree.specs.Comparing.{rewriting};

use crate::head::is_same_label;
use crate::index::RunIndex;
use crate::moves::Block;
use crate::types::is_same_type;
use dm_token::List;
use dm_tree::{Core, Declared, constant};
use dm_type::Types;

/// What stands where runs of a macro stood: a call of a function, or an enumerator or an object that is const with the number
/// of its declaration and its value.
#[derive(Clone, Copy)]
pub enum Added<'a> {
    Nothing,
    Function(AddedFunction<'a>),
    Enumerator(u32, i128),
    Constant(u32, i128),
}

/// A function whose body is one expression: its number, those of its parameters, and the expression.
#[derive(Clone, Copy)]
pub struct AddedFunction<'a> {
    pub number: u32,
    pub parameters: &'a [u32],
    pub body: &'a Core,
}

/// The types of both units, and the declarations of the old one; its runs; the numbers that are put in, and what is added.
#[derive(Drop)]
pub struct Comparison<'a> {
    pub new_types: &'a Types,
    pub old_types: &'a Types,
    pub declared: &'a List<Declared>,
    pub runs: RunIndex<'a>,
    pub block: Option<Block>,
    pub added: Added<'a>,
}

impl Comparison<'_> {
    /// Whether two nodes are the same apart from their parts.
    pub(crate) fn is_same_node(&self, new: &Core, old: &Core) -> bool
        requires new { IsTrue (are_known (length self.now.new_types.now.shapes) new.now) }
        requires old { IsTrue (are_known (length self.now.old_types.now.shapes) old.now) }
        ensures { IsTrue result ↔ SameNode (rewriting self.now) (label_of (view self.now.new_types.now new.now)) (kind_of (view self.now.new_types.now new.now)) (view self.now.old_types.now old.now) }
    {
        is_same_label(
            self.block,
            self.new_types,
            &new.form,
            self.old_types,
            &old.form,
        ) && self.is_same_kind(new, old)
    }

    /// Whether a new tree has the type of an old one.
    pub(crate) fn is_same_kind(&self, new: &Core, old: &Core) -> bool
        requires new { IsTrue (are_known (length self.now.new_types.now.shapes) new.now) }
        requires old { IsTrue (are_known (length self.now.old_types.now.shapes) old.now) }
        ensures { IsTrue result ↔ (kind_of (view self.now.new_types.now new.now) ≡ kind_of (view self.now.old_types.now old.now)) }
    {
        is_same_type(self.new_types, new.kind, self.old_types, old.kind)
    }

    /// Whether an old tree is an integer constant expression of the type of a new one and of this value.
    pub(crate) fn is_of_value(&self, new: &Core, old: &Core, value: &i128) -> bool
        requires new { IsTrue (are_known (length self.now.new_types.now.shapes) new.now) }
        requires old { IsTrue (are_known (length self.now.old_types.now.shapes) old.now) }
        ensures { IsTrue result ↔ ((kind_of (view self.now.new_types.now new.now) ≡ kind_of (view self.now.old_types.now old.now))
            × ((rewriting self.now).value (view self.now.old_types.now old.now) ≡ Some value.now)) }
    {
        self.is_same_kind(new, old) && constant(old, self.declared, self.old_types) == Some(*value)
    }
}
