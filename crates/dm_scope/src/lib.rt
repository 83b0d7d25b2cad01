//! Scopes (ISO/IEC 9899:2011, 6.2.1): which declaration a name means.
#![tactic(auto)]

mod scopes;

pub use scopes::Scopes;
