//! The objects of a run (ISO/IEC 9899:2011, 6.2.4, 6.2.6), why accesses to them are undefined, and what pointers to them may be
//! used for (6.3.2, 6.5.6, 6.5.8, 6.5.9).
#![tactic(auto)]

mod access;
mod blocks;
mod compare;
mod literal;
mod pointers;
mod uses;

pub use access::{to_enter, to_read, to_store, to_update};
pub use blocks::{Block, Blocks};
pub use compare::{are_equal, byte_pointed, pointer_distance, to_compare, to_subtract};
pub use pointers::{byte_at, distance_at, kind_of, moved_pointer, to_move};
pub use uses::{to_follow, to_order, to_use, truth};
