//! What looks the names of a unit up, apart from the unit.

use crate::chains::Chains;
use crate::events::Event;
use dm_name_map::NameMap;

/// What is known of the names of a unit. It can be kept while the unit is moved.
#[derive(Drop)]
pub struct Tables {
    pub(crate) identifiers: NameMap,
    pub(crate) uses: NameMap,
    pub(crate) events: Vec<Event>,
    pub(crate) chains: Chains,
}
