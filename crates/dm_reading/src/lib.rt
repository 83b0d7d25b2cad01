//! The readings of translation units (ISO/IEC 9899:2011, 5.1.1.2): what one consists of, what its layers say of its tokens,
//! and what holds of that. No file is read here.
#![tactic(auto)]

mod copies;
mod laws;
mod reading;

pub use copies::{copy_of_definition, copy_of_unit};
pub use laws::{no_refusal_of_syntax, one_refusal, one_syntax};
pub use reading::{Layers, Reading};
