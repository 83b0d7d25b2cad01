//! How the types of a program are laid out (ISO/IEC 9899:2011, 6.2.5p20, 6.7.2.1): what paths lead to, where its first byte is,
//! and where pointers may move (6.5.6).
#![tactic(auto)]

mod alike;
mod apart;
mod bytes;
mod fields;
mod kinds;
mod layout;
mod moves;

pub use alike::{agree_without_const, is_char, is_text};
pub use apart::distance;
pub use bytes::{byte_of, size};
pub use kinds::{ObjectType, bare_kind, inner};
pub use layout::{Element, Field, Layout, Reached, bare, is_const};
pub use moves::{Tail, moved};
