//! Arguments that may be evaluated at another time or more often (ISO/IEC 9899:2011, 6.5): those whose value stays the same while the
//! expression round them is evaluated, and those whose evaluation can't be undefined.
#![tactic(auto)]

mod kept;
mod kinds;
mod laws;
mod marking;
mod marks;
mod names;
mod objects;
mod safety;
mod set;
mod stability;
mod steady;

pub use kept::is_scalar_local;
pub use laws::typed_units_have_known_entries;
pub use names::Names;
pub use objects::Objects;
pub use safety::{has_safe_form, is_safe, safe};
pub use stability::{is_stable, is_stable_where, stable};
pub use steady::has_steady_leaves;
