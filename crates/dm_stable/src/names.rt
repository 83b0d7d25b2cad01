//! Names of objects in arguments.

ghost use Rattle.std.specs.Prelude.{◌≡◌, ℕ, Bool, length, option_map, slice_get, IfSome, IsTrue};
ghost use Rattle.std.specs.List.{list_all};
ghost use Rattle.std.specs.Option.{option_copied};
ghost use Rattle.dm_type.specs.Tables.{IsId, Table};
ghost use Rattle.dm_tree.specs.Trees.{Trees, more_trees};
ghost use Rattle.dm_tree.specs.TypeNumbers.{entry_has_known};
ghost use Rattle.dm_tree.specs.Views.{view, view_of_declared, view_of_unit};
ghost use Rattle.dm_effect.specs.Entities.{is_named, object_first};

use dm_tree::{Core, CoreUnit, Declared, Form};

/// A test of objects, by the numbers of their declarations.
pub trait Names {
    ghost test: { Self → ℕ → Bool };

    /// Whether an object passes.
    fn pass(&self, object: u32) -> bool
        ensures { result ≡ test self.now object };
}

/// Whether a tree is the name of an object that passes.
pub(crate) fn passes<N: Names>(tree: &Core, names: &N) -> bool
    ensures { (types : Table) (rest : Trees) → result ≡ is_named (N.test names.now) (object_first (more_trees (view types tree.now) rest)) }
{
    match object_named(tree) {
        Some(object) => names.pass(object),
        None => false,
    }
}

/// The object that a tree names.
pub(crate) fn object_named(tree: &Core) -> Option<u32>
    ensures { (types : Table) (rest : Trees) → object_first (more_trees (view types tree.now) rest) ≡ result }
{
    match &tree.form {
        Form::Object(number) => Some(*number),
        _ => None,
    }
}

/// The entry of a declaration.
pub(crate) fn entry_of(unit: &CoreUnit, number: u32) -> Option<&Declared>
    ensures entry { (types : Table) → option_map (view_of_declared types) (option_copied result) ≡ slice_get (view_of_unit types unit.now).declared number }
    ensures known { (types : Table) → IsTrue (list_all (entry_has_known (length types.shapes)) unit.now.declared) → IfSome result (λ entry. IsId types entry.now.kind) }
{
    unit.declared.items().get(number as usize)
}
