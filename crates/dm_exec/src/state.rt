//! States of a run (5.1.2.3).

use dm_state::{Ongoing, Running, Turn};

/// A run of a program, which goes on or has ended.
#[derive(Drop)]
pub struct State<'a> {
    /// Behind an end only what was written counts.
    pub(crate) going: Going<'a>,
    /// What the last step did. None after a want of memory.
    pub(crate) turn: Option<Turn>,
}

/// A run that goes on.
#[derive(Drop)]
pub(crate) struct Going<'a> {
    pub(crate) running: Running<'a>,
    /// The full expression of which something is evaluated, where `goes` says that there is one.
    pub(crate) ongoing: Ongoing<'a>,
    pub(crate) goes: bool,
}
