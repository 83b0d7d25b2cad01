//! States of a run, and what statements, declarators and calls do in them (ISO/IEC 9899:2011, 5.1.2.3, 6.8, 6.9.1).
#![tactic(auto)]

mod call;
mod close;
mod conclude;
mod full;
mod hand_back;
mod named;
mod running;
mod turn;
mod turns;
mod unfold;

pub use full::{Full, Ongoing};
pub use named::Names;
pub use running::{Caller, Running};
pub use turn::Turn;
