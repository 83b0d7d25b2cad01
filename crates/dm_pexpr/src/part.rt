//! Trees that are read.

ghost use Rattle.std.specs.Prelude.{◌≡◌, ◌+◌, ◌<◌, ◌∷◌, ◌++◌, [], IfOk, max, nat_le, if◌then◌else◌};
ghost use Rattle.dm_token.specs.Limits.{greatest_height};
ghost use Rattle.dm_pexpr.specs.Counted.{most_counted};
ghost use Rattle.dm_syn.specs.Heights as height;

use dm_token::{GREATEST_HEIGHT, List, Memory};
use std::alloc::Global;

/// A tree or a list of trees that is read, with its height and where it ends.
#[derive(Drop)]
pub struct Part<T> {
    pub tree: T,
    pub height: u32,
    pub after: u32,
}

/// A tree with its height and where it ends, unless it is too high.
pub fn checked<T: Drop>(tree: T, height: u32, after: u32) -> Option<Part<T>>
    ensures { result ≡ (if nat_le height greatest_height then Some (record { tree = tree; height = height; after = after }) else None) }
{
    if height <= GREATEST_HEIGHT {
        Some(Part {
            tree,
            height,
            after,
        })
    } else {
        None
    }
}

/// One more than the height of a part.
pub fn over(part: u32) -> u32
    ensures { part < most_counted → result ≡ part + 1 }
{
    part.saturating_add(1)
}

/// One more than the height of the highest of two parts.
pub fn above(left: u32, right: u32) -> u32
    ensures { left < most_counted → right < most_counted → result ≡ height.above left right }
{
    over(left.max(right))
}

/// A list of one part.
pub fn begun<T: Drop>(alloc: Global, part: Part<T>) -> Result<Part<List<T>>, Memory>
    ensures { IfOk result (λ list. list ≡ record { tree = part.tree ∷ []; height = part.height; after = part.after }) }
{
    let mut tree = List::new(alloc);
    tree.push(part.tree)?;
    Ok(Part {
        tree,
        height: part.height,
        after: part.after,
    })
}

/// A list with one more part.
pub fn joined<T: Drop>(list: Part<List<T>>, part: Part<T>) -> Result<Part<List<T>>, Memory>
    ensures { IfOk result (λ all. all ≡ record { tree = list.tree ++ part.tree ∷ []; height = max list.height part.height; after = part.after }) }
{
    let mut tree = list.tree;
    tree.push(part.tree)?;
    Ok(Part {
        tree,
        height: list.height.max(part.height),
        after: part.after,
    })
}
