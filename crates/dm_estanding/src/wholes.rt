//! The types of entries at the end of a unit (6.2.7p3).

ghost use Rattle.std.specs.Prelude.{◌≡◌, List as Sequence, IfOk, length, map};
ghost use Rattle.dm_type.specs.declared.shape.Shape.{Shape as OneShape};
ghost use Rattle.dm_tree.specs.Units.{Declaration};
ghost use Rattle.dm_edecl.specs.Standing.{Linked};
ghost use Rattle.dm_edecl.specs.Linkages as linkages;
ghost use Rattle.dm_estanding.specs.Summaries.{entry_over, Summarises};
ghost use Rattle.dm_estanding.specs.Wholes.{with_whole, settled};

use crate::links::Links;
use crate::scopes::with_kind;
use dm_token::{List, Memory};
use dm_tree::Declared;

/// The entries of a unit, where each that has linkage has the type that all its declarations say together. More than
/// 4,294,967,295 entries count as want of memory. Its time is that of one look-up for each entry.
pub fn with_whole_kinds(entries: List<Declared>, links: &Links) -> Result<List<Declared>, Memory>
    ensures whole { IfOk result (λ settled. (later : Sequence OneShape) (declared : Sequence Declaration) (linked : Sequence Linked) → Summarises later links.now declared linked
        → map (entry_over later) settled ≡ linkages.with_whole_kinds linked 0 (map (entry_over later) entries)) }
    ensures kinds { IfOk result (λ made. made ≡ settled links.now 0 entries) }
{
    let Ok(count) = u32::try_from(entries.len()) else {
        return Err(Memory);
    };
    Ok(settled(entries, links, count))
}

/// So many entries, with the types that all declarations say.
fn settled(entries: List<Declared>, links: &Links, count: u32) -> List<Declared>
    requires { length entries ≡ count }
    ensures { result ≡ settled links.now 0 entries }
{
    let mut entries = entries;
    for number in 0..count {
        entries = with_whole(entries, links, number);
    }
    entries
}

/// The entries, of which one has the type that all its declarations say, if it has linkage.
fn with_whole(entries: List<Declared>, links: &Links, number: u32) -> List<Declared>
    ensures { result ≡ with_whole links.now number entries }
{
    match links.whole(number) {
        Some(whole) => with_kind(entries, number, whole.kind),
        None => entries,
    }
}
