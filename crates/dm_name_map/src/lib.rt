//! Numbers by names.
#![tactic(auto)]

mod name_map;

pub use name_map::NameMap;
