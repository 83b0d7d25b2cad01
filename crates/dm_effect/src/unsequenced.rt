//! The operands that are unsequenced to a tree (6.5p3).

ghost use Rattle.std.specs.Prelude.{◌≡◌, ◌∷◌, [], ◌++◌, ℕ, IfOk, OnOk, map, reverse};
ghost use Rattle.dm_type.specs.Tables.{Table};
ghost use Rattle.dm_tree.specs.Paths.{Path as Way};
ghost use Rattle.dm_tree.specs.Views.{view};
ghost use Rattle.dm_effect.specs.Sequencing as sequencing;
ghost use Rattle.dm_effect.specs.Sequencing.{others_of};
ghost use Rattle.dm_effect.specs.Operands as operands;
ghost use Rattle.dm_effect.specs.Operands.{others_by};

use crate::parts::part;
use crate::sequencing::Path;
use dm_token::{List, Memory};
use dm_tree::{Core, Form};
use std::alloc::Global;

/// The ways to the operands that are unsequenced to what stands at a place, from the inside out. A way that leads to no tree is
/// followed as far as there are trees.
pub fn beside(alloc: Global, full: &Core, at: &Path) -> Result<List<Path>, Memory>
    ensures { IfOk result (λ ways. (types : Table) → ways ≡ sequencing.beside at.now (view types full.now)) }
{
    let mut found = Vec::new(alloc);
    let mut tree = full;
    let mut left = at.items();
    while let Some((number, rest)) = left.split_first() {
        let (front, _) = at.items().split_at(at.len() - left.len());
        push_others(alloc, front, *number, last_operand(tree), &mut found)?;
        match part(tree, *number) {
            Some(next) => tree = next,
            None => return Ok(reversed(found)),
        }
        left = rest;
    }
    Ok(reversed(found))
}

/// What was found last comes first.
fn reversed(found: Vec<Path>) -> List<Path>
    ensures { result ≡ reverse found.items }
{
    let mut ways = found;
    ways.reverse();
    List::from_vec(ways)
}

/// The ways to the other operands of a node, to which the way in front leads, from the right.
fn push_others(
    alloc: Global,
    front: &[usize],
    number: usize,
    last: Option<usize>,
    found: &mut Vec<Path>,
) -> Result<(), Memory>
    ensures { OnOk result (found.new.items ≡ found.old.items ++ reverse (map (λ (way : Way). front.now ++ way) (others_by number last))) }
{
    let mut left = last;
    while let Some(operand) = left {
        if operand != number {
            let way = longer(alloc, front, operand)?;
            found.push(way)?;
        }
        left = previous(operand);
    }
    Ok(())
}

/// The number before one.
pub(crate) fn previous(number: usize) -> Option<usize>
    ensures { result ≡ operands.previous number }
{
    if number == 0 { None } else { Some(number - 1) }
}

/// A way with one more step.
fn longer(alloc: Global, front: &[usize], number: usize) -> Result<Path, Memory>
    ensures { IfOk result (λ way. way ≡ front.now ++ number ∷ []) }
{
    let mut way = front.to_vec(alloc)?;
    way.push(number)?;
    Ok(List::from_vec(way))
}

/// The number of the last operand of a node that leaves its operands unsequenced.
pub(crate) fn last_operand(tree: &Core) -> Option<usize>
    ensures { (types : Table) (n : ℕ) → others_of n (view types tree.now) ≡ others_by n result }
{
    match &tree.form {
        Form::Binary(_, _, _) | Form::Store(_, _) | Form::Update(_, _, _, _) => Some(1),
        Form::Call(_, arguments) => Some(arguments.len()),
        _ => None,
    }
}
