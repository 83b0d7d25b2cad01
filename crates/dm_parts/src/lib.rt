//! Which token of phase 7 a token of phase 4 becomes or is part of (ISO/IEC 9899:2011, 5.1.1.2, phases 6 and 7).
#![tactic(auto)]

mod laws;

pub use laws::tokens_begin_where_they_are_counted;
