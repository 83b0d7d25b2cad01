//! What looks definitions up in a reading, apart from it.

use crate::places::Counts;
use dm_runs::{ByDirective, Runs};

/// What an index knows of a reading. It can be kept while the reading is moved.
#[derive(Drop)]
pub struct Tables {
    pub(crate) runs: Runs,
    pub(crate) mentions: dm_mentions::Tables,
    pub(crate) readings: ByDirective<u32>,
    pub(crate) expansions: ByDirective<u32>,
    pub(crate) places: Counts,
}
