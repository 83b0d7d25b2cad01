//! Of which expression the expression at a place is a part.

ghost use Rattle.std.specs.Prelude.{◌≡◌, ◌++◌, ◌<◌, ℕ, Some, length, replicate, IfOk, OnOk};
ghost use Rattle.dm_type.specs.Tables.{Table};
ghost use Rattle.dm_tree.specs.Views.{view_of_unit};
ghost use Rattle.dm_sites.specs.Links.{linked};
ghost use Rattle.dm_sites.specs.Sites.{sites_of_unit};
ghost use Rattle.dm_around.specs.Places.{ArePlain, AreParents};

use crate::parts::count_parts;
use dm_sites::Sites;
use dm_token::Memory;
use std::alloc::Global;

/// By the number of each place that of the expression of which it has a part. Goes through the places once: those of the parts of an
/// expression come behind its own, each with what is inside it.
pub(crate) fn parents_of(alloc: Global, sites: &Sites) -> Result<Vec<Option<usize>>, Memory>
    ensures same { IfOk result (λ made. (types : Table) → ArePlain (sites_of_unit (view_of_unit types sites.now)) → AreParents (sites_of_unit (view_of_unit types sites.now)) made.items) }
    ensures before { IfOk result (λ made. (n above : ℕ) → linked made.items n ≡ Some above → above < n) }
    ensures count { IfOk result (λ made. (types : Table) → length made.items ≡ length (sites_of_unit (view_of_unit types sites.now))) }
{
    let mut parents = Vec::new(alloc);
    let mut left = Vec::new(alloc);
    while let Some(site) = sites.get(parents.len()) {
        let number = parents.len();
        parents.push(left.pop())?;
        push_times(&mut left, number, count_parts(&site.tree.form))?;
    }
    Ok(parents)
}

/// Pushes a number so many times.
fn push_times(numbers: &mut Vec<usize>, number: usize, count: usize) -> Result<(), Memory>
    ensures { OnOk result (numbers.new.items ≡ numbers.old.items ++ replicate count number) }
{
    let mut done = 0;
    while done < count {
        numbers.push(number)?;
        done += 1;
    }
    Ok(())
}

/// The number of the place above the one with this number.
pub(crate) fn parent_at(parents: &[Option<usize>], number: usize) -> Option<usize>
    ensures { result ≡ linked parents.now number }
{
    match parents.get(number) {
        Some(parent) => *parent,
        None => None,
    }
}
