//! Labels of statements (6.8.1).

ghost use Rattle.std.specs.Prelude.{◌≡◌};
ghost use Rattle.dm_type.specs.Tables.{Table};
ghost use Rattle.dm_tree.specs.Views.{view};
ghost use Rattle.dm_meaning.specs.Statements as statements;
ghost use Rattle.dm_frame.specs.Tasks.{TreeFits};

use dm_tree::{Core, Form};

/// The statement behind labels, which take no step (6.8.1p4).
pub(crate) fn unlabelled(tree: &Core) -> &Core
    ensures same { (table : Table) → view table result.now ≡ statements.unlabelled (view table tree.now) }
    ensures fits { (table : Table) → TreeFits table tree.now → TreeFits table result.now }
{
    let mut at = tree;
    loop {
        match &at.form {
            Form::Case(_, statement) => at = statement.get(),
            Form::Default(statement) => at = statement.get(),
            _ => return at,
        }
    }
}
