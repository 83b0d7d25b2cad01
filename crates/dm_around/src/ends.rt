//! Where the places inside an expression end.

ghost use Rattle.std.specs.Prelude.{◌≡◌, ◌+◌, ◌<◌, length, IfOk};
ghost use Rattle.dm_type.specs.Tables.{Table};
ghost use Rattle.dm_tree.specs.Views.{view_of_unit};
ghost use Rattle.dm_sites.specs.Sites.{sites_of_unit};
ghost use Rattle.dm_around.specs.Places as places;
ghost use Rattle.dm_around.specs.Places.{ArePlain, AreEnds, jumps};

use crate::parts::count_parts;
use dm_sites::Sites;
use dm_token::Memory;
use std::alloc::Global;

/// By the number of each place that of the first one behind those inside it. The last place comes first: behind an expression's own place
/// stand those of its parts, each of which ends where the next one begins.
pub(crate) fn ends_of(alloc: Global, sites: &Sites, total: usize) -> Result<Vec<usize>, Memory>
    requires { (types : Table) → total ≡ length (sites_of_unit (view_of_unit types sites.now)) }
    ensures { IfOk result (λ made. (types : Table) → ArePlain (sites_of_unit (view_of_unit types sites.now)) → AreEnds (sites_of_unit (view_of_unit types sites.now)) made.items) }
{
    let mut ends = vec![in alloc; 0; total]?;
    let mut number = total;
    while number > 0 {
        number -= 1;
        if let Some(site) = sites.get(number) {
            let end = end_behind(ends.as_slice(), number, count_parts(&site.tree.form));
            ends[number] = end;
        }
    }
    Ok(ends)
}

/// Where so many parts end of the expression at the place with this number.
fn end_behind(ends: &[usize], number: usize, count: usize) -> usize
    requires { number < length ends.now }
    ensures { result ≡ jumps ends.now count (number + 1) }
{
    let mut at = number + 1;
    let mut left = count;
    while left > 0 {
        at = end_at(ends, at);
        left -= 1;
    }
    at
}

/// Where the places inside the one with this number end.
pub(crate) fn end_at(ends: &[usize], number: usize) -> usize
    ensures { result ≡ places.number_at ends.now number }
{
    match ends.get(number) {
        Some(end) => *end,
        None => 0,
    }
}
