//! What specifiers and declarators make of types (ISO/IEC 9899:2011, 6.7.1 to 6.7.6): lists of specifiers, the steps of
//! declarators, parameters, members, and the scopes and trees that they open.
#![tactic(auto)]

pub mod declarators;
pub mod names;
pub mod places;
pub mod specifiers;
pub mod tagged;
