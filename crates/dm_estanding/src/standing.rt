//! What is known at a place where declarations may stand.

ghost use Rattle.dm_estanding.specs.Kinds.{HaveKinds, WereTypes};

use crate::links::Links;
use dm_type::TypeId;
use dm_typing::Known;

/// An entry that has another type from a place in a scope on.
#[derive(Clone, Copy)]
pub struct Retyped {
    pub number: u32,
    /// Its type before.
    pub kind: TypeId,
}

/// What expressions and type names see, and what has linkage.
#[derive(Drop)]
pub struct Standing {
    pub known: Known,
    pub links: Links,
    /// The entries that have another type than where the scopes that are open began, the last of them last.
    pub retyped: Vec<Retyped>,
    ghost kinds: { HaveKinds known.types links },
    ghost before: { WereTypes known.types retyped.items },
}

/// Where a scope opens: how many declarations there are, and how many entries have another type.
#[derive(Clone, Copy)]
pub struct Mark {
    pub declared: usize,
    pub retyped: usize,
}
