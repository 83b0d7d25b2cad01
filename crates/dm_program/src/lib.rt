//! The program of a translation unit as a run needs it (ISO/IEC 9899:2011, 6.9): its declarations, functions and objects of
//! static storage duration, found by the numbers of their declarations.
#![tactic(auto)]

mod adding;
mod definitions;
mod fixed;
mod function;
mod gathering;
mod program;
mod statics;

pub use fixed::Static;
pub use function::Function;
pub use program::Program;
