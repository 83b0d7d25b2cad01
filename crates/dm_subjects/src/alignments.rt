//! Whether the units that were read again are the old ones but for an edit.

ghost use Rattle.std.specs.Prelude.{◌↔◌, Option, All, IfNone, IfOk, IfSome, IsTrue};
ghost use Rattle.dm_reading.specs.declared.reading.Reading.{Reading as Read};
ghost use Rattle.dm_alignment.specs.Readings.{AreAlignedReadings};
ghost use Rattle.dm_meanings.specs.Named.{AreNamesOf};
ghost use Rattle.dm_readings.specs.Units.{IsTyped};
ghost use Rattle.dm_rules.specs.Indexes.{readings_of};
ghost use Rattle.dm_rules.specs.Tables.{AreTables};
ghost use Rattle.dm_subjects.specs.Alignments.{AreAllAligned, IsAligned};
ghost use Rattle.dm_subjects.specs.Tables.{AreNew, IsNew};

use crate::tables::News;
use dm_alignment::{Alignment, align_in};
use dm_edit::Change;
use dm_meanings::{Named, names_in};
use dm_names::Names;
use dm_reading::Reading;
use dm_rules::{Index, Tables};
use dm_token::Memory;
use std::alloc::Global;

/// What is known of each new reading, if each unit that has one is aligned with its old one. Only new readings are gone through. More
/// than 4,294,967,294 tokens, expansions or external declarations of a unit count as want of memory.
pub fn aligned_news(
    alloc: Global,
    kept: &[Index],
    news: &[Option<Reading>],
    change: &Change,
) -> Result<Option<News>, Memory>
    requires kept { All IsTyped (readings_of kept.now) }
    requires news { All (λ (new : Option Read). IfSome new IsTyped) news.now }
    ensures aligned { IfOk result (λ found. IfSome found (λ _. AreAllAligned change.now (readings_of kept.now) news.now)) }
    ensures known { IfOk result (λ found. IfSome found (AreNew news.now)) }
    ensures differs { IfOk result (λ found. IfNone found (¬ AreAllAligned change.now (readings_of kept.now) news.now)) }
{
    if kept.len() != news.len() {
        return Ok(None);
    }
    let mut tables = Vec::new(alloc);
    let mut names = Vec::new(alloc);
    for i in 0..kept.len() {
        let one = compared(alloc, &kept[i], &news[i], change)?;
        if !one.is_aligned {
            return Ok(None);
        }
        tables.push(one.tables)?;
        names.push(one.names)?;
    }
    Ok(Some(News { tables, names }))
}

/// Whether a unit is aligned with its old reading, if it has a new one, and what is known of that.
#[derive(Drop)]
struct Comparison {
    is_aligned: bool,
    tables: Option<Tables>,
    names: Option<Names>,
}

fn compared(
    alloc: Global,
    old: &Index,
    new: &Option<Reading>,
    change: &Change,
) -> Result<Comparison, Memory>
    requires old { IsTyped old.now.reading.now }
    requires new { IfSome new.now IsTyped }
    ensures aligned { IfOk result (λ answer. IsTrue answer.is_aligned ↔ IsAligned change.now old.now.reading.now new.now) }
    ensures tables { IfOk result (λ answer. IsNew AreTables new.now answer.tables) }
    ensures names { IfOk result (λ answer. IsNew AreNamesOf new.now answer.names) }
{
    let Some(new) = new else {
        return Ok(Comparison {
            is_aligned: true,
            tables: None,
            names: None,
        });
    };
    let names = names_in(alloc, new)?;
    let is_aligned = is_same(alloc, old, &Named::new(new, &names), change)?;
    let tables = Index::of(alloc, new)?.into_tables();
    Ok(Comparison {
        is_aligned,
        tables: Some(tables),
        names: Some(names),
    })
}

/// Whether two readings are aligned.
fn is_same(alloc: Global, old: &Index, new: &Named, change: &Change) -> Result<bool, Memory>
    requires old { IsTyped old.now.reading.now }
    requires new { IsTyped new.now.reading.now }
    ensures { IfOk result (λ answer. IsTrue answer ↔ AreAlignedReadings old.now.reading.now new.now.reading.now change.now) }
{
    match align_in(alloc, old, new, change)? {
        Alignment::Same => Ok(true),
        Alignment::Differs => Ok(false),
    }
}
