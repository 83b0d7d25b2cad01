//! What is looked up for the runs of a definition.

use crate::named::Named;
use crate::names::Names;
use dm_token::Definition;

/// What is looked up for the runs of a definition.
#[derive(Clone, Copy)]
pub(crate) struct Stand<'a> {
    /// The expansions of the unit.
    pub(crate) names: &'a Names<'a>,
    pub(crate) definition: &'a Definition,
    /// The tokens of the definition's replacement list that name parameters.
    pub(crate) named: &'a [Named],
}
