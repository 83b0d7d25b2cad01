//! The steps of nodes whose operands are evaluated (ISO/IEC 9899:2011, 6.5), calls and the nodes that evaluate only some of their
//! operands apart.
#![tactic(auto)]

mod conversions;
mod evaluation;
mod numbers;
mod operator;
mod pairs;
mod perform;
mod places;
mod replacement;
mod signs;
mod stores;
mod sums;

pub use evaluation::{Did, Evaluation, Operand, Operands};
pub use numbers::{number, truth_value};
pub use perform::operate;
pub use places::designated;
