//! Whether declarators are the same apart from the expressions of their initialisers.

ghost use Rattle.std.specs.Prelude.{◌≡◌, ◌↔◌, IsTrue, map};
ghost use Rattle.dm_type.specs.Tables.{Table};
ghost use Rattle.dm_tree.specs.Views.{declarators_of, items_of, view_of_local};
ghost use Rattle.dm_meaning.specs.Replaced.{renamed_declarator};
ghost use Rattle.dm_meaning.specs.Wholes.{view_of_initial};
ghost use Rattle.dm_agree.specs.Moves.{moved_past};

use crate::moves::{Block, is_moved};
use dm_tree::{Initial, Local};

/// Whether declarators are others with the new numbers.
pub fn are_same_declarators(block: Option<Block>, new: &[Local], old: &[Local]) -> bool
    ensures { (a b : Table) → IsTrue result ↔ (declarators_of (map (view_of_local a) new.now) ≡ map (renamed_declarator (moved_past block)) (declarators_of (map (view_of_local b) old.now))) }
{
    let mut left = new;
    let mut others = old;
    while let Some((local, rest)) = left.split_first() {
        let Some((other, behind)) = others.split_first() else {
            return false;
        };
        if !is_same_declarator(block, local, other) {
            return false;
        }
        left = rest;
        others = behind;
    }
    others.is_empty()
}

fn is_same_declarator(block: Option<Block>, new: &Local, old: &Local) -> bool
    ensures { (a b : Table) → IsTrue result ↔ ((view_of_local a new.now).declarator ≡ renamed_declarator (moved_past block) (view_of_local b old.now).declarator) }
{
    if !is_moved(block, new.declared, old.declared) || new.defines != old.defines {
        return false;
    }
    match (&new.initial, &old.initial) {
        (None, None) => true,
        (Some(initial), Some(other)) => is_same_initial(initial, other),
        _ => false,
    }
}

/// Whether two initialisers are written alike.
#[cycle(initials)]
fn is_same_initial(new: &Initial, old: &Initial) -> bool
    ensures { (a b : Table) → IsTrue result ↔ ((view_of_initial a new.now).initialiser ≡ (view_of_initial b old.now).initialiser) }
{
    match (new, old) {
        (Initial::Value(_), Initial::Value(_)) => true,
        (Initial::Parts(list), Initial::Parts(others)) => {
            are_same_initials(list.items(), others.items())
        }
        _ => false,
    }
}

#[cycle(initials)]
fn are_same_initials(new: &[Initial], old: &[Initial]) -> bool
    ensures { (a b : Table) → IsTrue result ↔ (items_of (map (view_of_initial a) new.now) ≡ items_of (map (view_of_initial b) old.now)) }
{
    let mut left = new;
    let mut others = old;
    while let Some((initial, rest)) = left.split_first() {
        let Some((other, behind)) = others.split_first() else {
            return false;
        };
        if !is_same_initial(initial, other) {
            return false;
        }
        left = rest;
        others = behind;
    }
    others.is_empty()
}
