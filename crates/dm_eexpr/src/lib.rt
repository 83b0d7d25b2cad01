//! The types of C expressions and type names, found by going through their syntax (ISO/IEC 9899:2011, 6.5, 6.7.2, 6.7.6,
//! 6.7.7).
#![tactic(auto)]

mod elaborate;
pub mod expressions;
pub mod syntax;

pub use elaborate::elaborate_expr;
