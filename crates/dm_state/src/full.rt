//! Full expressions under evaluation (6.8p4).

use dm_expression::Expression;
use dm_frame::{Begun, Use};
use dm_operate::Operand;
use dm_token::Place;
use dm_value::At;

/// A full expression of which something is evaluated.
#[derive(Drop)]
pub struct Ongoing<'a> {
    pub place: Place,
    pub expression: Expression<'a, Operand, At>,
    /// What its value is for.
    pub use_of: Use<'a>,
}

/// A full expression under evaluation.
#[derive(Drop)]
pub enum Full<'a> {
    /// Nothing of it is evaluated.
    Begins(Begun<'a>),
    Goes(Ongoing<'a>),
}
