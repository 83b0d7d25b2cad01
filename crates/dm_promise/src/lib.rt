//! What the plan of a project does to the programs of its units (ISO/IEC 9899:2011, 5.1.2.3).
#![tactic(auto)]

mod laws;

pub use laws::{applied_programs_refine, planned_programs_refine};
