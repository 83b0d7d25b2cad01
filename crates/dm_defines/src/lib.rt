//! The text of each define of a lawful manifest is one of tokens (ISO/IEC 9899:2011, 5.1.1.2).
#![tactic(auto)]

mod laws;

pub use laws::lawful_defines_are_tokens;
