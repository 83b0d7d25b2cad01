//! What a single node does.

ghost use Rattle.std.specs.Prelude.{◌≡◌, ℕ, Bool};
ghost use Rattle.dm_type.specs.Tables.{Table};
ghost use Rattle.dm_tree.specs.Trees.{Trees, more_trees};
ghost use Rattle.dm_tree.specs.Views.{view};
ghost use Rattle.dm_effect.specs.Effects.{acted, disturbed};
ghost use Rattle.dm_effect.specs.Entities.{addresses_here, function_first, is_this, object_first, writes_here};
ghost use Rattle.dm_effect.specs.Quiet.{disturbs};
ghost use Rattle.dm_effect.specs.Stable as stable;

use dm_tree::{Core, Form};

/// What a node does.
#[derive(Clone, Copy)]
pub(crate) enum Effect {
    Nothing,
    /// It stores, or calls what isn't named.
    Disturbs,
    /// It calls the function of this number.
    Calls(u32),
}

/// What a node does.
pub(crate) fn effect_of(node: &Core) -> Effect
    ensures acts { (types : Table) → stable.acts (view types node.now) ≡ acted result }
    ensures disturbs { (types : Table) (quiet : ℕ → Bool) → disturbs quiet (view types node.now) ≡ disturbed quiet result }
{
    match &node.form {
        Form::Store(_, _) | Form::Update(_, _, _, _) => Effect::Disturbs,
        Form::Count {
            plus: _,
            before: _,
            object: _,
        } => Effect::Disturbs,
        Form::Call(function, _) => match function_named(function.get()) {
            Some(number) => Effect::Calls(number),
            None => Effect::Disturbs,
        },
        _ => Effect::Nothing,
    }
}

/// Whether it calls or stores.
pub(crate) fn acts(effect: Effect) -> bool
    ensures { result ≡ acted effect }
{
    match effect {
        Effect::Nothing => false,
        Effect::Disturbs | Effect::Calls(_) => true,
    }
}

/// The function that a tree names.
fn function_named(tree: &Core) -> Option<u32>
    ensures { (types : Table) (rest : Trees) → function_first (more_trees (view types tree.now) rest) ≡ result }
{
    match &tree.form {
        Form::Function(number) => Some(*number),
        _ => None,
    }
}

/// The object that a tree names.
pub(crate) fn object_named(tree: &Core) -> Option<u32>
    ensures { (types : Table) (rest : Trees) → object_first (more_trees (view types tree.now) rest) ≡ result }
{
    match &tree.form {
        Form::Object(number) => Some(*number),
        _ => None,
    }
}

/// Whether a tree is the name of the object.
fn is_object(tree: &Core, object: u32) -> bool
    ensures { (types : Table) (rest : Trees) → is_this object (object_first (more_trees (view types tree.now) rest)) ≡ result }
{
    match object_named(tree) {
        Some(number) => number == object,
        None => false,
    }
}

/// Whether a node stores in the object by its name.
pub(crate) fn writes(node: &Core, object: u32) -> bool
    ensures { (types : Table) → writes_here object (view types node.now) ≡ result }
{
    match &node.form {
        Form::Store(target, _) | Form::Update(_, _, target, _) => is_object(target.get(), object),
        Form::Count {
            plus: _,
            before: _,
            object: target,
        } => is_object(target.get(), object),
        _ => false,
    }
}

/// Whether a node is `&` of the object's name.
pub(crate) fn addresses(node: &Core, object: u32) -> bool
    ensures { (types : Table) → addresses_here object (view types node.now) ≡ result }
{
    match &node.form {
        Form::Address(operand) => is_object(operand.get(), object),
        _ => false,
    }
}
