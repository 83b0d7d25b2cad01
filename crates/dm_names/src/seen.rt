//! What is seen of the names of a unit on the way through its syntax.

use crate::identifier::{Entered, Identifier};
use crate::nest::{Nest, Scope};
use dm_token::List;

/// What is seen so far of an external declaration, and the scopes that are open.
#[derive(Drop)]
pub struct Seen {
    pub scopes: Nest,
    /// What the parameter list that ended first in a declarator declares.
    pub own: Option<Scope>,
    /// How many declarators there are so far in the unit.
    pub declarators: u32,
    /// And how many entries.
    pub entries: u32,
    /// The identifiers and tags of the external declaration so far.
    pub identifiers: List<Identifier>,
    /// What it declares in file scope that wasn't declared there before.
    pub entered: List<Entered>,
}

/// What an external declaration shows of names.
#[derive(Drop)]
pub struct Shown {
    /// Its identifiers and tags.
    pub identifiers: List<Identifier>,
    /// What it declares in file scope that wasn't declared there before.
    pub entered: List<Entered>,
    /// How many entries there are behind it.
    pub entries: u32,
}
