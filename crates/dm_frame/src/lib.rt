//! Statements, declarations and function frames of a run (ISO/IEC 9899:2011, 6.7 to 6.9): how they begin and end, and what
//! the values of full expressions are for.
#![tactic(auto)]

mod calling;
mod conclusion;
mod form;
mod frame;
mod initial;
mod jump;
mod label;
mod next;
mod objects;
mod stack;
mod statement;
mod switching;
mod task;

pub use calling::open;
pub use conclusion::{conclude, designated_value};
pub use frame::Frame;
pub use initial::begin_initialiser;
pub use jump::end_objects;
pub use next::Next;
pub use stack::Stack;
pub use statement::begin_statement;
pub use task::{Begun, Loop, Task, Use};
