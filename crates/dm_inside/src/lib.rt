//! That macro definitions lie in the bytes of their files (ISO/IEC 9899:2011, 6.10.3).
#![tactic(auto)]

mod laws;

pub use laws::definitions_lie_in_bytes;
