//! A function that is running (6.9.1).

use crate::stack::Stack;
use crate::task::Task;

/// A function that is running, without the full expression that is under evaluation in it.
#[derive(Drop)]
pub struct Frame<'a> {
    /// The number of its declaration.
    pub function: u32,
    /// The objects that declarations name in it, the newest first: each declaration's number and the object's.
    pub objects: Stack<(u32, u64)>,
    /// What is left to do, the next first.
    pub tasks: Stack<Task<'a>>,
}
