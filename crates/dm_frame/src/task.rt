//! What is left to do in a function that is running (6.8).

use dm_layout::ObjectType;
use dm_tree::{Core, Initial, Local};
use dm_value::{At, Value};

/// A loop (6.8.5).
#[derive(Clone, Copy)]
pub struct Loop<'a> {
    pub condition: Option<&'a Core>,
    /// What is evaluated after its body.
    pub after: Option<&'a Core>,
    pub body: &'a Core,
}

/// What the value of a full expression is for.
#[derive(Drop)]
pub enum Use<'a> {
    /// Nothing (6.8.3p2).
    Drops,
    /// It chooses a statement, the first where it isn't 0 (6.8.4.1p2).
    Chooses(&'a Core, Option<&'a Core>),
    /// It chooses an item of a switch (6.8.4.2p4).
    Selects(&'a [Core]),
    /// It says whether the body of a loop is executed again (6.8.5p4).
    Repeats(Loop<'a>),
    /// It was evaluated after the body of a loop.
    Continues(Loop<'a>),
    /// It is what the function returns (6.8.6.4p3).
    Returns,
    /// It is the first value of an object or a part of one, of this type (6.7.9p11).
    Initialises(At, ObjectType),
}

/// A full expression that begins.
#[derive(Drop)]
pub struct Begun<'a> {
    pub tree: &'a Core,
    pub use_of: Use<'a>,
}

/// What is left to do. A `usize` says how many objects of the frame were alive when a statement began.
#[derive(Drop)]
pub enum Task<'a> {
    /// The items of a block, in order.
    Items(&'a [Core]),
    /// A statement begins.
    Begins(&'a Core),
    /// The declarators of a declaration, in order.
    Declares(&'a [Local]),
    /// An initialiser of an object or a part of one begins.
    Initials(At, ObjectType, &'a Initial),
    /// The initialisers of a list in braces, in order, from that of a part on.
    Parts(At, ObjectType, u32, &'a [Initial]),
    /// A loop goes on, at what follows its body.
    Again(usize, Loop<'a>),
    /// A loop goes on, at its condition.
    Tests(usize, Loop<'a>),
    /// A statement ends: only the objects that were alive before it stay alive.
    Ends(usize),
    /// The block of a switch ends.
    EndsSwitch(usize),
    /// Control leaves the body of the innermost loop or switch (6.8.6.3).
    Leaves,
    /// Control goes to the end of the body of the innermost loop (6.8.6.2).
    Skips,
    /// The frame ends and gives a value.
    HandsBack(Value),
}
