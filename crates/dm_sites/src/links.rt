//! Places by the tokens that their expressions may have.

ghost use Rattle.std.specs.Prelude.{◌≡◌, ◌+◌, ◌==◌, ◌<◌, ℕ, Some, IfOk, OnOk, map, if◌then◌else◌, vec_len, slice_get, List as Sequence};
ghost use Rattle.dm_type.specs.Tables.{Table};
ghost use Rattle.dm_sites.specs.Links as links;
ghost use Rattle.dm_sites.specs.Links.{AreLinked, AreLinkedFrom};
ghost use Rattle.dm_sites.specs.Seen.{seen};
ghost use Rattle.dm_sites.specs.Sites as sites;

use crate::site::Site;
use crate::standing::is_value;
use dm_token::{Memory, Span};
use std::alloc::Global;

/// The sum of a span's ends.
pub(crate) fn ends(span: Span) -> usize
    ensures { result ≡ links.ends span }
{
    span.first as usize + span.after as usize
}

/// The sum by which a place is found.
fn key(site: &Site) -> Option<usize>
    ensures { (types : Table) (all : Sequence sites.Site) → links.key (seen types all site.now) ≡ result }
{
    if site.apart && is_value(site.tree) {
        Some(ends(site.tree.inner))
    } else {
        None
    }
}

/// What a table of numbers has at a place.
pub(crate) fn linked(numbers: &[Option<usize>], at: usize) -> Option<usize>
    ensures { result ≡ links.linked numbers.now at }
{
    match numbers.get(at) {
        Some(number) => *number,
        None => None,
    }
}

/// Puts a number at a place of a table, which grows as far as that.
fn put(numbers: &mut Vec<Option<usize>>, at: usize, number: Option<usize>) -> Result<(), Memory>
    ensures { OnOk result ((n : ℕ) → links.linked numbers.new.items n ≡ (if at == n then number else links.linked numbers.old.items n)) }
{
    grow(numbers, at)?;
    numbers[at] = number;
    Ok(())
}

/// The table goes beyond this place.
fn grow(numbers: &mut Vec<Option<usize>>, at: usize) -> Result<(), Memory>
    ensures same { OnOk result ((n : ℕ) → links.linked numbers.new.items n ≡ links.linked numbers.old.items n) }
    ensures long { OnOk result (at < vec_len numbers.new) }
{
    while numbers.len() <= at {
        numbers.push(None)?;
    }
    Ok(())
}

/// By the sum of a span's ends the first place of an expression that has it, and by a place's number the next one.
#[derive(Drop)]
pub(crate) struct Links {
    pub heads: Vec<Option<usize>>,
    pub next: Vec<Option<usize>>,
}

/// Those of some places.
pub(crate) fn link(alloc: Global, found: &[Site]) -> Result<Links, Memory>
    ensures { IfOk result (λ made. (types : Table) (all : Sequence sites.Site) → map (seen types all) found.now ≡ all → AreLinked all made.heads.items made.next.items) }
{
    let mut heads = Vec::new(alloc);
    let mut next = Vec::new(alloc);
    let mut number = found.len();
    while number > 0 {
        number -= 1;
        link_one(&found[number], number, &mut heads, &mut next)?;
    }
    Ok(Links { heads, next })
}

/// Those from the place with this number on, where there are those behind it.
fn link_one(
    site: &Site,
    number: usize,
    heads: &mut Vec<Option<usize>>,
    next: &mut Vec<Option<usize>>,
) -> Result<(), Memory>
    ensures { OnOk result ((types : Table) (all : Sequence sites.Site) → slice_get all number ≡ Some (seen types all site.now)
        → AreLinkedFrom (number + 1) all heads.old.items next.old.items → AreLinkedFrom number all heads.new.items next.new.items) }
{
    match key(site) {
        Some(sum) => {
            put(next, number, linked(heads.as_slice(), sum))?;
            put(heads, sum, Some(number))?;
            Ok(())
        }
        None => Ok(()),
    }
}
