//! The objects of static storage duration that a unit defines (6.2.4p3, 6.9.2).

use dm_tree::Initial;

/// An object of static storage duration.
#[derive(Clone, Copy)]
pub struct Static<'a> {
    /// The number of its declaration.
    pub declared: u32,
    pub initial: Option<&'a Initial>,
}
