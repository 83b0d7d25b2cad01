//! Whether something round a place is among certain places.

ghost use Rattle.std.specs.Prelude.{◌≡◌, ◌||◌, ◌+◌, ◌<◌, ◌^◌, ◌-◌, ℕ, Some, slice_get};
ghost use Rattle.std.specs.List.{list_any};
ghost use Rattle.std.specs.List.Sorted.{IsNonDecreasingBy};
ghost use Rattle.dm_tree.specs.Units.{TypedUnit};
ghost use Rattle.dm_effect.specs.Entities.{writes};
ghost use Rattle.dm_effect.specs.Sequencing.{around};
ghost use Rattle.dm_sites.specs.Sites.{sites_of_unit, Site as SeenSite};
ghost use Rattle.dm_around.specs.declared.links.Link.{Link as SeenLink};
ghost use Rattle.dm_around.specs.Places as places;
ghost use Rattle.dm_around.specs.Surroundings as surroundings;
ghost use Rattle.dm_around.specs.Writes as stores;
ghost use Rattle.dm_around.specs.Writes.{AreStores, is_between};

use crate::ends::end_at;
use crate::links::{Link, link_at};

/// Whether there is a number at a position, and it is below this one.
fn is_below(numbers: &[usize], index: usize, to: usize) -> bool
    ensures { result ≡ stores.is_below to (slice_get numbers.now index) }
{
    match numbers.get(index) {
        Some(number) => *number < to,
        None => false,
    }
}

/// Whether one of some ascending numbers is from this one on, and below that one.
fn is_any_between(numbers: &[usize], from: usize, to: usize) -> bool
    requires { IsNonDecreasingBy (λ (n : ℕ). n) numbers.now }
    ensures { result ≡ list_any (is_between from to) numbers.now }
{
    let index = numbers.partition_point(|number| *number < from);
    is_below(numbers, index, to)
}

/// Whether one of some ascending numbers is that of a place in another operand of an expression than this one.
fn is_any_in_others(numbers: &[usize], ends: &[usize], link: Link) -> bool
    requires ascending { IsNonDecreasingBy (λ (n : ℕ). n) numbers.now }
    requires low { link.above < 2 ^ 64 - 1 }
    ensures { result ≡ (list_any (is_between (link.above + 1) link.part) numbers.now
        || list_any (is_between (places.number_at ends.now link.part) (places.number_at ends.now link.above)) numbers.now) }
{
    if is_any_between(numbers, link.above + 1, link.part) {
        return true;
    }
    is_any_between(numbers, end_at(ends, link.part), end_at(ends, link.above))
}

/// Whether one of the places that store into an object is in an operand that is unsequenced to the place with this number.
fn is_written_beside(row: &[usize], ends: &[usize], links: &[Option<Link>], number: usize) -> bool
    requires ascending { IsNonDecreasingBy (λ (n : ℕ). n) row.now }
    requires before { (n : ℕ) (link : SeenLink) → surroundings.link_at links.now n ≡ Some link → link.above < n }
    ensures { (one : TypedUnit) (d : ℕ) (site : SeenSite) → AreStores one d row.now ends.now links.now → slice_get (sites_of_unit one) number ≡ Some site
        → result ≡ surroundings.any_beside (writes d) site }
{
    let mut at = number;
    while let Some(link) = link_at(links, at) {
        if is_any_in_others(row, ends, link) {
            return true;
        }
        at = link.above;
    }
    false
}

/// Whether one of them is in what stands there, or in such an operand. Goes up the expressions above the place that leave their operands
/// unsequenced.
pub(crate) fn is_written_around(
    row: &[usize],
    ends: &[usize],
    links: &[Option<Link>],
    number: usize,
) -> bool
    requires ascending { IsNonDecreasingBy (λ (n : ℕ). n) row.now }
    requires before { (n : ℕ) (link : SeenLink) → surroundings.link_at links.now n ≡ Some link → link.above < n }
    ensures { (one : TypedUnit) (d : ℕ) (site : SeenSite) → AreStores one d row.now ends.now links.now → slice_get (sites_of_unit one) number ≡ Some site
        → result ≡ list_any (writes d) (around site.path site.full) }
{
    if is_any_between(row, number, end_at(ends, number)) {
        return true;
    }
    is_written_beside(row, ends, links, number)
}
