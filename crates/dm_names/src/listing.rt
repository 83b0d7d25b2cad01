//! What all external declarations of a unit show of names (6.9).

ghost use Rattle.std.specs.Prelude.{◌≡◌, ◌++◌, map, IfOk, OnOk};
ghost use Rattle.dm_syn.specs.Views as view;
ghost use Rattle.dm_names.specs.Meanings as meanings;
ghost use Rattle.dm_names.specs.Walks.{source_in};

use crate::identifier::Identifier;
use crate::nest::Nest;
use crate::seen::{Seen, Shown};
use crate::walk::Walk;
use dm_syn::External;
use dm_token::{List, Memory};
use std::alloc::Global;
use std::mem;

impl Walk<'_> {
    /// What each external declaration shows.
    pub(crate) fn shown(&self, externals: &[External]) -> Result<List<Shown>, Memory>
        ensures { IfOk result (λ all. all ≡ meanings.shown_by (source_in self.now) (map view.external externals.now)) }
    {
        let mut so_far = nothing_seen(self.alloc)?;
        let mut all = List::new(self.alloc);
        for external in externals {
            self.external(&mut so_far, external)?;
            all.push(show(self.alloc, &mut so_far))?;
        }
        Ok(all)
    }
}

fn nothing_seen(alloc: Global) -> Result<Seen, Memory>
    ensures { IfOk result (λ seen. seen ≡ meanings.nothing_seen) }
{
    Ok(Seen {
        scopes: Nest::new(alloc)?,
        own: None,
        declarators: 0,
        entries: 0,
        identifiers: List::new(alloc),
        entered: List::new(alloc),
    })
}

/// What an external declaration shows. The next one begins.
fn show(alloc: Global, so_far: &mut Seen) -> Shown
    ensures shown { result ≡ meanings.shown so_far.old }
    ensures next { so_far.new ≡ meanings.next_external so_far.old }
{
    Shown {
        identifiers: mem::replace(&mut so_far.identifiers, List::new(alloc)),
        entered: mem::replace(&mut so_far.entered, List::new(alloc)),
        entries: so_far.entries,
    }
}

/// The identifiers of all.
pub(crate) fn identifiers_of(alloc: Global, all: &[Shown]) -> Result<List<Identifier>, Memory>
    ensures { IfOk result (λ identifiers. identifiers ≡ meanings.identifiers_in all.now) }
{
    let mut identifiers = List::new(alloc);
    for shown in all {
        push_all(&mut identifiers, shown.identifiers.items())?;
    }
    Ok(identifiers)
}

fn push_all(identifiers: &mut List<Identifier>, more: &[Identifier]) -> Result<(), Memory>
    ensures { OnOk result (identifiers.new ≡ identifiers.old ++ more.now) }
{
    for identifier in more {
        identifiers.push(*identifier)?;
    }
    Ok(())
}
