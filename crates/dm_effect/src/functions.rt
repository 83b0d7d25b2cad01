//! Functions whose body is one `return`.

ghost use Rattle.std.specs.Prelude.{◌≡◌, map};
ghost use Rattle.std.specs.Option.{option_copied, option_map};
ghost use Rattle.dm_type.specs.CTypes.{CType};
ghost use Rattle.dm_type.specs.Tables.{Table};
ghost use Rattle.dm_tree.specs.Trees.{block, Spans, node, trees};
ghost use Rattle.dm_tree.specs.Views.{view};
ghost use Rattle.dm_effect.specs.Questions.{is_quiet_since};
ghost use Rattle.dm_effect.specs.Quiet as quiet;
ghost use Rattle.dm_effect.specs.Quiet.{alone_returned};

use dm_tree::{Core, Form};

/// What a body returns that is one `return` alone.
pub(crate) fn returned(body: &Core) -> Option<&Core>
    ensures { (types : Table) → alone_returned (view types body.now) ≡ option_map (view types) (option_copied result) }
{
    match &body.form {
        Form::Block(items) => returned_alone(items.items()),
        _ => None,
    }
}

/// What the only one of some items returns.
fn returned_alone(items: &[Core]) -> Option<&Core>
    ensures { (types : Table) (kind : CType) (spans : Spans) → alone_returned (node block kind spans (trees (map (view types) items.now))) ≡ option_map (view types) (option_copied result) }
{
    let (only, others) = items.split_first()?;
    if others.is_empty() {
        value_returned(only)
    } else {
        None
    }
}

/// What a statement returns.
fn value_returned(statement: &Core) -> Option<&Core>
    ensures { (types : Table) → quiet.value_returned (view types statement.now) ≡ option_map (view types) (option_copied result) }
{
    match &statement.form {
        Form::Return(Some(value)) => Some(value.get()),
        _ => None,
    }
}

/// Whether a function is quiet at a token.
pub(crate) fn is_quiet_at(since: &[Option<u32>], token: u32, function: u32) -> bool
    ensures { result ≡ is_quiet_since since.now token function }
{
    match since.get(function as usize) {
        Some(Some(from)) => *from <= token,
        _ => false,
    }
}
