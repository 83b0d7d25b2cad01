//! Type names whose array lengths and enumerator values name no automatic object (ISO/IEC 9899:2011, 6.2.1, 6.6, 6.7.7).
#![tactic(auto)]

mod plain;

pub use plain::has_plain_types;
