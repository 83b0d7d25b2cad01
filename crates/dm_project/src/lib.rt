//! The reading of a project's units (ISO/IEC 9899:2011, 5.1.1.2), and the reading again of those that an edit touches.
#![tactic(auto)]

mod again;
mod units;

pub use again::read_again;
pub use dm_read::Steps;
pub use units::read_units;
