//! The functions that the machine itself has (ISO/IEC 9899:2011, 7.21.7.6, 7.21.7.8, 7.21.7.9, 7.22.4.4), and a run's input and
//! output.
#![tactic(auto)]

mod byte;
mod call;
mod primitive;
mod streams;
mod text;

pub use byte::byte_in;
pub use call::Answer;
pub use primitive::Primitive;
pub use streams::Streams;
