//! States of a run that goes on (6.2.4, 6.9.1).

use crate::full::Full;
use crate::named::Names;
use dm_expression::Expression;
use dm_frame::{Frame, Stack, Use};
use dm_memory::Blocks;
use dm_operate::Operand;
use dm_primitive::Streams;
use dm_token::Place;
use dm_type::TypeId;
use dm_value::At;

/// A function that waits for one that it has called.
#[derive(Drop)]
pub struct Caller<'a> {
    pub frame: Frame<'a>,
    /// The place of the full expression in which the call stands.
    pub place: Place,
    /// The type of the call.
    pub kind: TypeId,
    /// The full expression, which lacks the call at its place.
    pub expression: Expression<'a, Operand, At>,
    /// What its value is for.
    pub use_of: Use<'a>,
}

/// A state of a run that goes on.
#[derive(Drop)]
pub struct Running<'a> {
    /// The function that is running.
    pub frame: Frame<'a>,
    /// The full expression that is under evaluation in it, if there is one.
    pub full: Option<Full<'a>>,
    pub callers: Stack<Caller<'a>>,
    /// The objects of static storage duration.
    pub statics: Names,
    pub blocks: Blocks,
    pub streams: Streams<'a>,
}
