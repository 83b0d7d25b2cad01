//! What the evaluation of an expression does and needs (ISO/IEC 9899:2011, 5.1.2.3, 6.5): which operand comes first, which operands are
//! unsequenced to another one, and which expressions write nothing, stay the same, or can't go wrong.
#![tactic(auto)]

mod around;
mod declarators;
mod effect;
mod entities;
mod examples;
mod functions;
mod parts;
mod question;
mod quieting;
mod sequencing;
mod unsequenced;
mod walk;

pub use around::is_written_around;
pub use entities::{is_addressed, is_defined, is_initialised, is_parameter, is_pure};
pub use examples::{
    automatic_objects_are_stable, calls_of_earlier_functions_are_quiet, operands_come_first,
    set_integers_are_safe, unsequenced_operands_are_beside,
};
pub use parts::{Parts, parts_of};
pub use quieting::{QuietFunctions, quiet};
pub use sequencing::{Path, first};
pub use unsequenced::beside;
