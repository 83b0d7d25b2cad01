//! Macro expansion with trails (ISO/IEC 9899:2011, 6.10.3): what a text expands to, and through which expansions and
//! arguments each of its tokens came.
#![tactic(auto)]

ghost use Rattle.std.specs.Prelude.{◌≡◌, ◌≤◌, ◌+◌, Ok, IfOk, IfErr, length, map};
ghost use Rattle.dm_token.specs.Limits.{most_work};
ghost use Rattle.dm_expand.specs.Items.{of_source};
ghost use Rattle.dm_expand.specs.Expansion.{expansion_of};
ghost use Rattle.dm_expand.specs.Views.{StopsAs};
ghost use Rattle.dm_expand.specs.AnswerViews.{looked_up, answer, AreNumberedFrom};

mod arguments;
mod extension;
mod fill;
mod head;
mod hidden;
mod item;
mod laws;
mod machine;
mod needs;
mod paste;
mod predefined;
mod progress;
mod queue;
mod stretch;
mod string;
mod substitute;
mod trails;

use dm_macro::MacroTable;
use dm_token::{Expansion, List, Memory, PpToken, Stop, Text, Token};
use head::Macros;
use item::Item;
pub use laws::{
    always_an_answer, cases_at_the_head, depth_is_enough, hidden_name_stays,
    text_without_names_stays,
};
use machine::expand_list;
use progress::Progress;
use std::alloc::Global;

/// The count of a unit's work: the definitions that it reads, its expansions, and the tokens that they put out.
#[derive(Clone, Copy, Debug, PartialEq, Eq)]
pub struct Work {
    pub spent: u32,
}

/// What a text expands to.
#[derive(Debug, PartialEq, Eq, Drop)]
pub struct Expanded {
    pub tokens: List<Token>,
    /// In the order in which they were made.
    pub expansions: List<Expansion>,
}

/// The expansion of a group of tokens of the source, where `names` are the files' names by number and the next expansion
/// has the number `first_instance`. The first stop in the order of expansion is refusal 9 (6.10.3p4) or 10 (6.10.3.3p3)
/// at the name of the invocation, or limit 3 with the file of the name. After an `Err` the count means nothing.
pub fn expand(
    alloc: Global,
    table: &MacroTable,
    names: &[Text],
    group: &[PpToken],
    first_instance: u32,
    work: &mut Work,
) -> Result<Expanded, Stop>
    requires numbered { first_instance ≤ work.old.spent }
    requires counted { work.old.spent ≤ most_work }
    ensures expanded { IfOk result (λ expanded.
        expansion_of (looked_up table.now names.now) group.now first_instance work.old.spent ≡ Ok (answer expanded.tokens expanded.expansions work.new.spent)) }
    ensures counted { IfOk result (λ expanded. length expanded.expansions + work.old.spent ≤ work.new.spent) }
    ensures within { IfOk result (λ expanded. work.new.spent ≤ most_work) }
    ensures numbered { IfOk result (λ expanded. AreNumberedFrom first_instance expanded.expansions) }
    ensures stop { IfErr result (λ stop. StopsAs (expansion_of (looked_up table.now names.now) group.now first_instance work.old.spent) stop) }
{
    let macros = Macros {
        alloc,
        table,
        files: names,
    };
    let source = source_items(alloc, group)?;
    let mut progress = Progress::new(alloc, first_instance, work.spent);
    let tokens = expand_list(&macros, source, &mut progress)?;
    let Progress {
        instance: _,
        spent,
        expansions,
        first: _,
    } = progress;
    work.spent = spent;
    Ok(Expanded {
        tokens: List::from_vec(tokens),
        expansions: List::from_vec(expansions),
    })
}

// The tokens of the source, before anything is done.
fn source_items(alloc: Global, group: &[PpToken]) -> Result<Vec<Item>, Memory>
    ensures { IfOk result (λ items. items.items ≡ map of_source group.now) }
{
    let mut items = Vec::with_capacity(alloc, group.len())?;
    for token in group {
        let item = Item::of_source(alloc, token)?;
        items.push(item)?;
    }
    Ok(items)
}
