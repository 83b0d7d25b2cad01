//! Places of expressions.

ghost use Rattle.std.specs.Prelude.{◌≡◌, List as Sequence};
ghost use Rattle.dm_type.specs.Tables.{Table};
ghost use Rattle.dm_tree.specs.Trees.{label_of, spans_of};
ghost use Rattle.dm_tree.specs.Views.{view};
ghost use Rattle.dm_sites.specs.Seen.{path_at, seen};
ghost use Rattle.dm_sites.specs.Sites as sites;
ghost use Rattle.dm_sites.specs.Walks.{at_path};

use crate::standing::{is_apart, is_in_type_name, is_sizeof};
use dm_tree::Core;

/// A place of an expression in a unit.
#[derive(Clone, Copy)]
pub struct Site<'a> {
    pub tree: &'a Core,
    /// The full expression in which it stands (6.8p4).
    pub full: &'a Core,
    /// Where it stands in that, if it isn't the whole.
    pub above: Option<Above>,
    /// Whether it is an expression of its own, and doesn't come from the same syntax as the node above it.
    pub apart: bool,
    /// Whether it stands in an array length, in an enumerator's value or in that of a `case`.
    pub constant: bool,
    /// Whether it stands in an initialiser of an object with static storage duration.
    pub fixed: bool,
    /// Whether it stands in an operand of `sizeof`.
    pub unevaluated: bool,
}

/// A part of an expression.
#[derive(Clone, Copy)]
pub struct Above {
    /// The number of the expression's place among those of the unit.
    pub site: usize,
    /// The part's number, counted from 0.
    pub part: usize,
}

/// A full expression.
pub(crate) fn whole(tree: &Core, constant: bool, fixed: bool) -> Site<'_>
    ensures { (types : Table) (all : Sequence sites.Site) → seen types all result ≡ sites.whole constant fixed (view types tree.now) }
{
    Site {
        tree,
        full: tree,
        above: None,
        apart: true,
        constant,
        fixed,
        unevaluated: false,
    }
}

/// The part with this number of an expression, whose place has a number too.
pub(crate) fn operand<'a>(above: &Site<'a>, site: usize, part: usize, tree: &'a Core) -> Site<'a>
    ensures { (types : Table) (all : Sequence sites.Site) → seen types all result
        ≡ sites.operand_site (at_path (path_at all site) (seen types all above.now)) (label_of (view types above.now.tree.now)) (spans_of (view types above.now.tree.now)) part (view types tree.now) }
{
    let in_type_name = is_in_type_name(&above.tree.form, part);
    let in_sizeof = is_sizeof(&above.tree.form);
    Site {
        tree,
        full: above.full,
        above: Some(Above { site, part }),
        apart: is_apart(above.tree, tree),
        constant: above.constant || in_type_name,
        fixed: above.fixed,
        unevaluated: above.unevaluated || in_sizeof,
    }
}
