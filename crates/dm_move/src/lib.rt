//! The steps of full expressions under evaluation (ISO/IEC 9899:2011, 5.1.2.3, 6.5p2).
#![tactic(auto)]

mod calls;
mod going;
mod leaving;
mod moving;
mod names;
mod nodes;
mod operands;
mod settling;
mod step;
mod truths;
mod way;

pub use going::{Progress, no_expression};
pub use moving::advance;
