//! Where a unit mentions names: in the tokens of its list and in its directives (ISO/IEC 9899:2011, 6.10).
#![tactic(auto)]

mod chains;
mod events;
mod mentions;
mod places;
mod tables;

pub use events::Event;
pub use mentions::Mentions;
pub use tables::Tables;
