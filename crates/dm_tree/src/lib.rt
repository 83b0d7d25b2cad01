//! Typed trees, which are what the reading of a unit is to give (ISO/IEC 9899:2011, 6.5 to 6.9), and the values of integer
//! constant expressions in them (6.6).
#![tactic(auto)]

mod constants;
mod evaluation;
mod kinds;
mod tree;
mod unit;

pub use constants::{constant, has_constant_form};
pub use evaluation::{counted, is_nonzero, unary, updated};
pub use kinds::{in_range, integer_kind, may_stand_right};
pub use tree::{Core, Form, Initial, Local, Sign};
pub use unit::{CoreExternal, CoreExternalForm, CoreUnit, Declared, Linkage, Sort};
