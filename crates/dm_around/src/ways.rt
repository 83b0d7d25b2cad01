//! The ways from full expressions to places in them (ISO/IEC 9899:2011, 5.1.2.3p3).

ghost use Rattle.std.specs.Prelude.{◌≡◌, ◌<◌, ◌≤◌, ℕ, Some, length, IfOk};
ghost use Rattle.dm_type.specs.Tables.{Table};
ghost use Rattle.dm_tree.specs.Views.{opened_form, view_of_unit};
ghost use Rattle.dm_effect.specs.Sequencing as sequencing;
ghost use Rattle.dm_sites.specs.Links.{linked};
ghost use Rattle.dm_sites.specs.Sites.{sites_of_unit};
ghost use Rattle.dm_around.specs.Places.{ArePlain, AreParents};
ghost use Rattle.dm_around.specs.Ways as ways;
ghost use Rattle.dm_around.specs.Ways.{AreWays};

use crate::ends::end_at;
use crate::parents::parent_at;
use dm_sites::{Site, Sites};
use dm_token::Memory;
use dm_tree::Form;
use std::alloc::Global;

/// The way to a place from the full expression in which it is.
#[derive(Clone, Copy)]
pub(crate) struct Way {
    /// How many parts it has.
    pub depth: usize,
    /// From which depth on each of them comes first.
    pub gate: usize,
}

/// Whether the part with this number is evaluated before its node picks another one.
fn comes_first(form: &Form, part: usize) -> bool
    ensures { (types : Table) → result ≡ sequencing.comes_first (opened_form types form.now).label part }
{
    match form {
        Form::Both(_, _)
        | Form::Either(_, _)
        | Form::Choose(_, _, _)
        | Form::Comma(_, _)
        | Form::Convert(_, _) => part == 0,
        Form::SizeofTree(_) | Form::SizeofKind(_, _) => false,
        _ => true,
    }
}

/// The way to a full expression.
fn no_way() -> Way
    ensures { result ≡ ways.no_way }
{
    Way { depth: 0, gate: 0 }
}

/// One part further, which comes first or not.
fn further(way: Way, comes: bool) -> Way
    requires { way.depth < 18446744073709551615 }
    ensures { result ≡ ways.further way comes }
{
    let depth = way.depth + 1;
    let gate = if comes { way.gate } else { depth };
    Way { depth, gate }
}

/// That to the place with this number.
pub(crate) fn way_at(known: &[Way], number: usize) -> Way
    ensures { result ≡ ways.way_at known.now number }
{
    match known.get(number) {
        Some(way) => *way,
        None => no_way(),
    }
}

/// That to a place, where the number of the place above it is known.
fn way_below(sites: &Sites, known: &[Way], parent: Option<usize>, site: &Site) -> Way
    requires low { (n : ℕ) → (ways.way_at known.now n).depth ≤ n }
    requires few { (above : ℕ) → parent ≡ Some above → above < length known.now }
    ensures { (types : Table) → result ≡ ways.way_below (sites_of_unit (view_of_unit types sites.now)) known.now parent site.now.above }
{
    let Some(above) = parent else {
        return no_way();
    };
    let Some(upper) = sites.get(above) else {
        return no_way();
    };
    let Some(step) = site.above else {
        return no_way();
    };
    further(
        way_at(known, above),
        comes_first(&upper.tree.form, step.part),
    )
}

/// By the number of each place the way to it.
pub(crate) fn ways_of(
    alloc: Global,
    sites: &Sites,
    parents: &[Option<usize>],
) -> Result<Vec<Way>, Memory>
    requires before { (n above : ℕ) → linked parents.now n ≡ Some above → above < n }
    ensures { IfOk result (λ made. (types : Table) → ArePlain (sites_of_unit (view_of_unit types sites.now)) → AreParents (sites_of_unit (view_of_unit types sites.now)) parents.now
        → AreWays (sites_of_unit (view_of_unit types sites.now)) made.items) }
{
    let mut known = Vec::new(alloc);
    while let Some(site) = sites.get(known.len()) {
        let parent = parent_at(parents, known.len());
        let way = way_below(sites, known.as_slice(), parent, site);
        known.push(way)?;
    }
    Ok(known)
}

/// Whether a place is inside another one, or is that one, by the numbers where those inside end.
pub(crate) fn is_in(ends: &[usize], whole: usize, part: usize) -> bool
    ensures { result ≡ ways.is_in ends.now whole part }
{
    whole <= part && part < end_at(ends, whole)
}
