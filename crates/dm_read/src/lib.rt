//! The reading of a translation unit (ISO/IEC 9899:2011, 5.1.1.2): of its tokens its syntax, and all layers in turn.
#![tactic(auto)]

mod behind;
mod count;
mod syntax;
mod unit;

pub use count::Steps;
pub use syntax::unit_syntax;
pub use unit::read_unit;
