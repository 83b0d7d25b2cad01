//! The functions that a unit defines (6.9.1).

use dm_tree::Core;

/// The definition of a function.
#[derive(Clone, Copy)]
pub struct Function<'a> {
    /// The number of its declaration.
    pub number: u32,
    /// The numbers of its parameters' declarations.
    pub parameters: &'a [u32],
    pub body: &'a Core,
    /// The items of its body.
    pub items: &'a [Core],
}
