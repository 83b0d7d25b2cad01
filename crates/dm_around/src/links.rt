//! The nearest expressions above places that leave their operands unsequenced.

ghost use Rattle.std.specs.Prelude.{◌≡◌, ◌<◌, ℕ, Some, length, IfOk};
ghost use Rattle.dm_type.specs.Tables.{Table};
ghost use Rattle.dm_tree.specs.Views.{view_of_unit};
ghost use Rattle.dm_sites.specs.Links.{linked};
ghost use Rattle.dm_sites.specs.Sites.{sites_of_unit};
ghost use Rattle.dm_around.specs.declared.links.Link.{Link as SeenLink};
ghost use Rattle.dm_around.specs.Places.{ArePlain, AreParents};
ghost use Rattle.dm_around.specs.Surroundings as surroundings;
ghost use Rattle.dm_around.specs.Surroundings.{AreLinks};

use crate::parents::parent_at;
use crate::parts::is_unsequenced;
use dm_sites::Sites;
use dm_token::Memory;
use std::alloc::Global;

/// An expression that leaves its operands unsequenced, and one of them, by the numbers of their places.
#[derive(Clone, Copy)]
pub(crate) struct Link {
    pub above: usize,
    pub part: usize,
}

/// By the number of each place the nearest such expression above it, and the operand in which the place is.
pub(crate) fn links_of(
    alloc: Global,
    sites: &Sites,
    parents: &[Option<usize>],
) -> Result<Vec<Option<Link>>, Memory>
    requires before { (n above : ℕ) → linked parents.now n ≡ Some above → above < n }
    requires count { (types : Table) → length parents.now ≡ length (sites_of_unit (view_of_unit types sites.now)) }
    ensures same { IfOk result (λ made. (types : Table) → ArePlain (sites_of_unit (view_of_unit types sites.now)) → AreParents (sites_of_unit (view_of_unit types sites.now)) parents.now
        → AreLinks (sites_of_unit (view_of_unit types sites.now)) made.items) }
    ensures before { IfOk result (λ made. (n : ℕ) (link : SeenLink) → surroundings.link_at made.items n ≡ Some link → link.above < n) }
{
    let mut links = Vec::new(alloc);
    let mut number = 0;
    while number < parents.len() {
        let link = link_below(sites, links.as_slice(), parent_at(parents, number));
        links.push(link)?;
        number += 1;
    }
    Ok(links)
}

/// That of the place behind those that have one, where the number of the place above it is known.
fn link_below(sites: &Sites, links: &[Option<Link>], parent: Option<usize>) -> Option<Link>
    ensures { (types : Table) → result ≡ surroundings.link_below (sites_of_unit (view_of_unit types sites.now)) links.now parent }
{
    let above = parent?;
    let site = sites.get(above)?;
    if is_unsequenced(&site.tree.form) {
        Some(Link {
            above,
            part: links.len(),
        })
    } else {
        link_at(links, above)
    }
}

/// That of the place with this number.
pub(crate) fn link_at(links: &[Option<Link>], number: usize) -> Option<Link>
    ensures { result ≡ surroundings.link_at links.now number }
{
    match links.get(number) {
        Some(link) => *link,
        None => None,
    }
}
