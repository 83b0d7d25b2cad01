//! A translation unit comes to one thing (ISO/IEC 9899:2011, 5.1.1.2, 6.9): to one typed unit, whatever numbers its types have, or to one
//! refusal.
#![tactic(auto)]

mod laws;

pub use laws::{one_outcome, one_reading};
