//! What indexes know of the readings of a project, apart from these: it is kept while some of the readings are changed.

ghost use Rattle.std.specs.Prelude.{◌≡◌, IfOk};
ghost use Rattle.dm_rules.specs.Indexes.{readings_of};
ghost use Rattle.dm_subjects.specs.Tables.{HaveTables};

use dm_names::Names;
use dm_reading::Reading;
use dm_rules::{Index, Tables};
use dm_token::Memory;
use std::alloc::Global;

/// What is known of the readings of a project: what their indexes know, and what their names mean.
#[derive(Drop)]
pub struct Known {
    pub tables: Vec<Tables>,
    pub names: Vec<Names>,
}

/// The same of those units that have a new reading.
#[derive(Drop)]
pub struct News {
    pub tables: Vec<Option<Tables>>,
    pub names: Vec<Option<Names>>,
}

/// The indexes of some readings, of which this is known. No reading is gone through.
pub fn indexes_with<'r>(
    alloc: Global,
    readings: &'r [Reading],
    tables: Vec<Tables>,
) -> Result<Vec<Index<'r>>, Memory>
    requires { HaveTables readings.now tables.items }
    ensures { IfOk result (λ made. readings_of made.items ≡ readings.now) }
{
    let mut made = Vec::new(alloc);
    let mut left = tables;
    while let Some(one) = left.pop() {
        made.push(Index::with_tables(&readings[left.len()], one))?;
    }
    made.reverse();
    Ok(made)
}

/// What some indexes know, apart from their readings.
pub fn tables_of(alloc: Global, indexes: Vec<Index>) -> Result<Vec<Tables>, Memory>
    ensures { IfOk result (λ made. HaveTables (readings_of indexes.entry.items) made.items) }
{
    let mut made = Vec::new(alloc);
    let mut left = indexes;
    while let Some(one) = left.pop() {
        made.push(one.into_tables())?;
    }
    made.reverse();
    Ok(made)
}
