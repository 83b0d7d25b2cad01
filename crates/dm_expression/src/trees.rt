//! Trees that are put into rows (6.5p1).

ghost use Rattle.std.specs.Prelude.{◌≡◌, ◌++◌, length, map, IsTrue, IfOk, OnOk};
ghost use Rattle.dm_type.specs.Tables.{Table};
ghost use Rattle.dm_tree.specs.Views.{view};
ghost use Rattle.dm_expression.specs.Operands.{cores_in};
ghost use Rattle.dm_expression.specs.Waiting.{is_expression, IsPut};

use crate::waiting::{Doing, Operands, Waiting, open_operands};
use dm_row::{Item, Row};
use dm_token::Memory;
use dm_tree::Core;
use std::alloc::Global;

/// Puts the nodes of a tree of which nothing is evaluated behind the place of a row, those alone that may be evaluated.
pub fn put<'a, R: Drop>(
    alloc: Global,
    row: &mut Row<R, Waiting<'a>>,
    tree: &'a Core,
) -> Result<(), Memory>
    requires { (types : Table) → IsTrue (is_expression (view types tree.now)) }
    ensures { OnOk result (IsPut tree.now row.old row.new) }
{
    let mut parts = Vec::new(alloc);
    parts.push(tree)?;
    while let Some(node) = parts.pop() {
        let operands = open_operands(&node.form);
        let count = push_all(&mut parts, operands)?;
        let doing = Doing::Evaluates;
        row.put_behind(Item::Waits(Waiting { doing, node }, count))?;
    }
    Ok(())
}

/// Pushes operands in order, and counts them.
fn push_all<'a>(parts: &mut Vec<&'a Core>, operands: Operands<'a>) -> Result<usize, Memory>
    ensures count { IfOk result (λ count. count ≡ length (cores_in operands.entry)) }
    ensures parts { OnOk result (map (λ one. one.now) parts.new.items ≡ map (λ one. one.now) parts.old.items ++ cores_in operands.entry) }
{
    match operands {
        Operands::None => Ok(0),
        Operands::One(a) => {
            parts.push(a)?;
            Ok(1)
        }
        Operands::Two(a, b) => {
            parts.push(a)?;
            parts.push(b)?;
            Ok(2)
        }
        Operands::Many(all) => {
            for one in all {
                parts.push(one)?;
            }
            Ok(all.len())
        }
    }
}
