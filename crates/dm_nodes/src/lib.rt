//! That the nodes of typed trees stand where those of the syntax do (ISO/IEC 9899:2011, 6.5 to 6.9).
#![tactic(auto)]

mod laws;

pub use laws::{readings_stand_where_their_syntax_does, units_stand_where_their_syntax_does};
