//! The types of function definitions and of translation units (ISO/IEC 9899:2011, 6.9).
#![tactic(auto)]

mod bodies;
mod definable;
mod externals;
mod functions;
mod heading;
mod lacking;
mod naming;
mod parameters;
mod reopening;
mod unit;

pub use unit::elaborate;
