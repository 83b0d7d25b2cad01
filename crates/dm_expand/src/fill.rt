ghost use Rattle.std.specs.Prelude.{◌≡◌, [], ◌∷◌, ◌++◌, IfOk, OnOk, map};
ghost use Rattle.dm_token.specs.declared.expansion.Mark.TheVariants.{Argument};
ghost use Rattle.dm_token.specs.declared.token.PpKind.TheVariants.{Literal};
ghost use Rattle.dm_expand.specs.Items.{first_with_blank};
ghost use Rattle.dm_expand.specs.Pastes as pastes;
ghost use Rattle.dm_expand.specs.Strings.{quoted as string_of};
ghost use Rattle.dm_expand.specs.Steps.{take_argument};
ghost use Rattle.dm_expand.specs.Trails.{body_trail};
ghost use Rattle.dm_expand.specs.Substitution as substitution;
ghost use Rattle.dm_expand.specs.Ways.{way_of, moved};
ghost use Rattle.std.specs.FinSet as set;

use crate::hidden::Hidden;
use crate::item::{Item, copied};
use crate::paste::{Site, make_token, name_trail};
use crate::progress::Progress;
use crate::stretch::Stretch;
use crate::string::quoted;
use crate::trails::Way;
use dm_route::{Route, grown};
use dm_token::{Mark, Memory, PpKind, PpToken};
use std::alloc::Global;

/// The tokens of the argument for a parameter.
#[tactic(auto, unfolding(crate::specs::Substitution::argument_for))]
pub fn argument_for<'a>(site: &'a Site, parameter: u32) -> &'a [Item]
    ensures { result.now ≡ substitution.argument_for site.now parameter }
{
    match site.arguments.items().get(parameter as usize) {
        None => &[],
        Some(argument) => argument.items(),
    }
}

/// The argument for a parameter, as a list that shares its tokens.
#[tactic(auto, unfolding(crate::specs::Substitution::argument_for))]
pub fn copy_of_argument(alloc: Global, site: &Site, parameter: u32) -> Result<Stretch, Memory>
    ensures { IfOk result (λ argument. argument ≡ substitution.argument_for site.now parameter) }
{
    match site.arguments.items().get(parameter as usize) {
        None => Stretch::of(alloc, Vec::new(alloc)),
        Some(argument) => argument.copy(),
    }
}

/// A token of the replacement list itself.
#[tactic(auto, unfolding(crate::specs::Substitution::body_item))]
pub fn body_item(alloc: Global, site: &Site, token: &PpToken) -> Result<Item, Memory>
    ensures { IfOk result (λ item. item ≡ substitution.body_item site.now token.now) }
{
    Ok(Item {
        pp: token.copy()?,
        hidden: Hidden::nothing(alloc),
        trail: Route::of(site.inside.copy()?),
    })
}

// Leads a token on its argument's way.
fn move_item(way: &mut Way, item: &mut Item) -> Result<(), Memory>
    ensures moved { OnOk result (item.new ≡ moved way.old item.old) }
    ensures same { way.new ≡ way.old }
{
    item.trail = way.lead(&item.trail)?;
    Ok(())
}

// The same of all of these tokens.
fn move_items(way: &mut Way, items: &mut [Item]) -> Result<(), Memory>
    ensures { OnOk result (items.new ≡ map (moved way.old) items.old) }
{
    for item in items.iter_mut() {
        move_item(way, item)?;
    }
    Ok(())
}

// The way of an argument to one of its parameter's places.
fn way_to(alloc: Global, site: &Site, parameter: u32, occurrence: u32) -> Result<Way, Memory>
    ensures { IfOk result (λ way. way ≡ way_of site.now.name.trail (body_trail site.now.name.trail site.now.mark ++ Argument parameter occurrence ∷ [])) }
{
    let mark = Mark::Argument {
        parameter,
        occurrence,
    };
    let base = grown(&site.inside, mark)?;
    let way = Way::new(alloc, name_trail(site), base)?;
    Ok(way)
}

/// Gives the first of these tokens a blank before it, or none.
pub fn set_first_blank(items: &mut [Item], blank: bool)
    ensures { items.new ≡ first_with_blank blank items.old }
{
    match items {
        [] => (),
        [first, ..] => first.set_blank(blank),
    }
}

/// Puts an argument's tokens in the place of a parameter.
pub fn place(
    alloc: Global,
    site: &Site,
    token: &PpToken,
    parameter: u32,
    occurrence: u32,
    items: &mut [Item],
) -> Result<(), Memory>
    ensures { OnOk result (items.new ≡ substitution.placed site.now token.now parameter occurrence items.old) }
{
    let mut way = way_to(alloc, site, parameter, occurrence)?;
    move_items(&mut way, items)?;
    set_first_blank(items, token.blank_before);
    Ok(())
}

/// What `#` makes of an argument (6.10.3.2).
pub fn fill_hash(
    alloc: Global,
    site: &Site,
    token: &PpToken,
    parameter: u32,
    progress: &mut Progress,
) -> Result<Item, Memory>
    ensures made { IfOk result (λ made. made ≡ pastes.made site.now Literal (string_of (substitution.argument_for site.now parameter)) token.now.blank_before set.empty) }
    ensures taken { progress.new ≡ take_argument (substitution.argument_for site.now parameter) progress.old }
{
    let argument = argument_for(site, parameter);
    progress.take(argument);
    let spelling = quoted(alloc, argument)?;
    let made = make_token(
        site,
        PpKind::Literal,
        spelling,
        token.blank_before,
        Hidden::nothing(alloc),
    )?;
    Ok(made)
}

/// A parameter beside `##`: its argument as it is (6.10.3.3p2).
pub fn fill_beside(
    alloc: Global,
    site: &Site,
    token: &PpToken,
    parameter: u32,
    occurrence: u32,
    progress: &mut Progress,
) -> Result<Vec<Item>, Memory>
    ensures tokens { IfOk result (λ tokens. tokens.items ≡ substitution.placed site.now token.now parameter occurrence (substitution.argument_for site.now parameter)) }
    ensures taken { progress.new ≡ take_argument (substitution.argument_for site.now parameter) progress.old }
{
    let argument = argument_for(site, parameter);
    progress.take(argument);
    let mut tokens = copied(alloc, argument)?;
    place(
        alloc,
        site,
        token,
        parameter,
        occurrence,
        tokens.as_mut_slice(),
    )?;
    Ok(tokens)
}
