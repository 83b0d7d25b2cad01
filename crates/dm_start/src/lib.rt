//! The beginning of a run (ISO/IEC 9899:2011, 5.1.2): the objects of static storage duration and their first values (6.2.4p3,
//! 6.7.9p4, p10), and the frame of `main` with its arguments (5.1.2.2.1).
#![tactic(auto)]

mod address;
mod beginning;
mod initial;
mod making;
mod moving;
mod scalar;
mod scene;
mod storing;

pub use beginning::start;
