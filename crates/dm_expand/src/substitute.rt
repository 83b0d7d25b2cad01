ghost use Rattle.std.specs.Prelude.{◌≡◌, ◌<◌, ◌+◌, ◌^◌, IfOk, IfErr, OnOk, Ok, map, length, slice_index_or};
ghost use Rattle.dm_macro.specs.Bodies as bodies;
ghost use Rattle.dm_expand.specs.Laws.{Follows};
ghost use Rattle.dm_expand.specs.Substitution as substitution;
ghost use Rattle.dm_expand.specs.Substitution.{Expander};
ghost use Rattle.dm_expand.specs.Pastes as pastes;
ghost use Rattle.dm_expand.specs.Views.{StopsAs, IsWithin, pieces_in};
ghost use Rattle.dm_expand.specs.ListViews.{gives, fills, pieces_before, counted_if};
ghost use Rattle.dm_expand.specs.Works.{IsContent, content_value, parts_from, parts_left, parts_waiting, IsBefore, IsFrom, argument_pieces, put_together, IsLastIn};

use crate::fill::{body_item, fill_beside, fill_hash, place, set_first_blank};
use crate::hidden::{Hidden, Hiding};
use crate::item::Item;
use crate::paste::{Piece, Pieces, Site, paste};
use crate::progress::Progress;
use dm_macro::{Body, Role};
use dm_token::{Definition, Memory, Place, PpToken, Stop};
use std::alloc::Global;

/// What a part of a replacement list is filled with at once, or that its argument is to be completely expanded first
/// (6.10.3.1p1), with the parameter and which of its places this is.
#[derive(Drop)]
enum Content {
    One(Piece),
    Tokens(Vec<Item>),
    Whole {
        parameter: u32,
        occurrence: u32,
        last: bool,
    },
}

// The operand of `##` that an argument is: a placemarker in the place of none of its tokens (6.10.3.3p2).
fn operand(blank: bool, tokens: Vec<Item>) -> Content
    ensures { content_value result ≡ substitution.operands blank tokens.items }
{
    let count = tokens.as_slice().len();
    if count == 0 {
        return Content::One(Piece::Placemarker(blank));
    }
    Content::Tokens(tokens)
}

// What one part of the replacement list becomes.
fn fill(
    alloc: Global,
    site: &Site,
    token: &PpToken,
    role: Role,
    progress: &mut Progress,
) -> Result<Content, Memory>
    requires { IsWithin progress.old }
    ensures content { IfOk result (IsContent site.now token.now role progress.old progress.new) }
    ensures follows { OnOk result (Follows progress.old progress.new) }
{
    match role {
        Role::Plain => {
            let item = body_item(alloc, site, token)?;
            Ok(Content::One(Piece::Token(item)))
        }
        Role::Paste => {
            let item = body_item(alloc, site, token)?;
            Ok(Content::One(Piece::Operator(item)))
        }
        Role::Hash { parameter } => {
            let made = fill_hash(alloc, site, token, parameter, progress)?;
            Ok(Content::One(Piece::Token(made)))
        }
        Role::Beside {
            parameter,
            occurrence,
        } => {
            let tokens = fill_beside(alloc, site, token, parameter, occurrence, progress)?;
            Ok(operand(token.blank_before, tokens))
        }
        Role::Whole {
            parameter,
            occurrence,
            last,
        } => Ok(Content::Whole {
            parameter,
            occurrence,
            last,
        }),
    }
}

// Counts work, or doesn't.
fn count_if(progress: &mut Progress, counts: bool, place: Place, work: usize) -> Result<(), Stop>
    requires { IsWithin progress.old }
    ensures ok { OnOk result (counted_if counts place work progress.old ≡ Ok progress.new) }
    ensures follows { OnOk result (Follows progress.old progress.new) }
    ensures stop { IfErr result (λ stop. StopsAs (counted_if counts place work progress.old) stop) }
{
    if counts {
        progress.spend(place, work)?;
    }
    Ok(())
}

// The place of the name whose expansion this is.
fn place_of(site: &Site) -> Place
    ensures { result ≡ site.now.name.pp.place }
{
    let name = &site.name;
    name.pp.place
}

// How many tokens there are.
fn token_count(tokens: &[Item]) -> usize
    ensures { result ≡ length tokens.now }
{
    tokens.len()
}

/// A parameter of a replacement list whose argument is to be completely expanded first: its token, the index behind that
/// one, the parameter, which of its places this is, and whether it is the last one.
#[derive(Clone, Copy)]
pub struct Whole<'a> {
    pub token: &'a PpToken,
    pub behind: usize,
    pub parameter: u32,
    pub occurrence: u32,
    pub last: bool,
}

// The token at an index of a replacement list.
fn token_at(definition: &Definition, index: usize) -> &PpToken
    requires { index < length definition.now.body }
    ensures is { result.now ≡ slice_index_or definition.now.body index result.now }
    ensures counts { index + 1 < 2 ^ 64 }
{
    let body = definition.body.items();
    &body[index]
}

// The part of the replacement list at an index.
fn fill_at<'a>(
    alloc: Global,
    site: &Site,
    body: Body<'a>,
    index: usize,
    counts: bool,
    progress: &mut Progress,
    pieces: &mut Pieces,
) -> Result<Option<Whole<'a>>, Stop>
    requires within { IsWithin progress.old }
    requires inside { index < length body.definition.now.body }
    ensures ok { IfOk result (λ whole. (expander : Expander) →
        pieces_before (pieces_in pieces.old) (substitution.filled_all expander site.now counts (parts_from body.entry.definition.now index) progress.old)
        ≡ pieces_before (pieces_in pieces.new) (substitution.filled_all expander site.now counts (parts_left body.entry.definition.now (index + 1) whole) progress.new)) }
    ensures follows { OnOk result (Follows progress.old progress.new) }
    ensures at { IfOk result (IsBefore index) }
    ensures last { IfOk result (IsLastIn body.entry.definition.now) }
    ensures stop { IfErr result (λ stop. (expander : Expander) →
        StopsAs (pieces_before (pieces_in pieces.old) (substitution.filled_all expander site.now counts (parts_from body.entry.definition.now index) progress.old)) stop) }
{
    let token = token_at(body.definition, index);
    let Some(role) = body.role_at(index) else {
        return Ok(None);
    };
    match fill(alloc, site, token, role, progress)? {
        Content::Whole {
            parameter,
            occurrence,
            last,
        } => Ok(Some(Whole {
            token,
            behind: index + 1,
            parameter,
            occurrence,
            last,
        })),
        Content::One(piece) => {
            count_if(progress, counts, place_of(site), 1)?;
            pieces.push(piece)?;
            Ok(None)
        }
        Content::Tokens(more) => {
            count_if(
                progress,
                counts,
                place_of(site),
                token_count(more.as_slice()),
            )?;
            pieces.append(more)?;
            Ok(None)
        }
    }
}

/// The parts of the replacement list from an index on, up to the first one whose argument is to be expanded.
pub fn fill_from<'a>(
    alloc: Global,
    site: &Site,
    body: Body<'a>,
    from: usize,
    counts: bool,
    progress: &mut Progress,
    pieces: &mut Pieces,
) -> Result<Option<Whole<'a>>, Stop>
    requires { IsWithin progress.old }
    ensures ok { IfOk result (λ whole. (expander : Expander) →
        pieces_before (pieces_in pieces.old) (substitution.filled_all expander site.now counts (parts_from body.entry.definition.now from) progress.old)
        ≡ pieces_before (pieces_in pieces.new) (substitution.filled_all expander site.now counts (parts_waiting body.entry.definition.now whole) progress.new)) }
    ensures follows { OnOk result (Follows progress.old progress.new) }
    ensures inside { IfOk result (IsFrom from (length body.entry.definition.now.body)) }
    ensures last { IfOk result (IsLastIn body.entry.definition.now) }
    ensures stop { IfErr result (λ stop. (expander : Expander) →
        StopsAs (pieces_before (pieces_in pieces.old) (substitution.filled_all expander site.now counts (parts_from body.entry.definition.now from) progress.old)) stop) }
{
    'parts: for index in from..body.definition.body.len() {
        let whole = fill_at(alloc, site, body, index, counts, progress, pieces)?;
        if whole.is_some() {
            return Ok(whole);
        }
    }
    Ok(None)
}

// Adds a hide set to that of a token.
#[tactic(auto, unfolding(crate::specs::Substitution::hidden_besides))]
fn hide(hiding: &mut Hiding, item: &mut Item) -> Result<(), Memory>
    ensures hidden { OnOk result (item.new ≡ substitution.hidden_besides hiding.old item.old) }
    ensures same { hiding.new ≡ hiding.old }
{
    item.hidden = hiding.besides(&item.hidden)?;
    Ok(())
}

// The same for each of these tokens.
fn hide_all(hiding: &mut Hiding, items: &mut [Item]) -> Result<(), Memory>
    ensures { OnOk result (items.new ≡ map (substitution.hidden_besides hiding.old) items.old) }
{
    for item in items.iter_mut() {
        hide(hiding, item)?;
    }
    Ok(())
}

// Adds a hide set to each of these tokens.
fn hidden_besides(alloc: Global, hidden: &Hidden, tokens: Vec<Item>) -> Result<Vec<Item>, Memory>
    ensures { IfOk result (λ done. done.items ≡ map (substitution.hidden_besides hidden.now) tokens.items) }
{
    let mut done = tokens;
    let mut hiding = Hiding::new(alloc, hidden)?;
    hide_all(&mut hiding, done.as_mut_slice())?;
    Ok(done)
}

// The tokens of a replacement, as they are scanned again.
#[tactic(auto, unfolding(crate::specs::Substitution::finished))]
fn finish(
    alloc: Global,
    site: &Site,
    hidden: &Hidden,
    tokens: Vec<Item>,
) -> Result<Vec<Item>, Memory>
    ensures { IfOk result (λ done. done.items ≡ substitution.finished site.now hidden.now tokens.items) }
{
    let mut done = hidden_besides(alloc, hidden, tokens)?;
    let name = &site.name;
    set_first_blank(done.as_mut_slice(), name.pp.blank_before);
    Ok(done)
}

/// The replacement in one expansion, when its parts are filled: each `##` is done, and placemarkers go.
pub fn complete(
    alloc: Global,
    site: &Site,
    hidden: &Hidden,
    body: Body,
    pieces: Pieces,
    progress: &mut Progress,
) -> Result<Vec<Item>, Stop>
    requires { IsWithin progress.old }
    ensures ok { IfOk result (λ tokens.
        put_together site.now hidden.now (bodies.parts_of body.entry.definition.now) (fills (pieces_in pieces) progress.old) ≡ Ok (gives tokens.items progress.new)) }
    ensures follows { OnOk result (Follows progress.old progress.new) }
    ensures stop { IfErr result (λ stop.
        StopsAs (put_together site.now hidden.now (bodies.parts_of body.entry.definition.now) (fills (pieces_in pieces) progress.old)) stop) }
{
    let tokens = paste(alloc, site, pieces)?;
    count_if(
        progress,
        body.pastes,
        place_of(site),
        token_count(tokens.as_slice()),
    )?;
    let done = finish(alloc, site, hidden, tokens)?;
    Ok(done)
}

/// The tokens of a parameter whose argument expands to these, which count as work unless `##` is still to come.
pub fn fill_whole(
    alloc: Global,
    site: &Site,
    whole: Whole,
    tokens: Vec<Item>,
    counts: bool,
    progress: &mut Progress,
) -> Result<Vec<Item>, Stop>
    requires { IsWithin progress.old }
    ensures ok { IfOk result (λ placed.
        (map pastes.token placed.items ≡ argument_pieces site.now whole.entry tokens.items)
        × (counted_if counts site.now.name.pp.place (length (argument_pieces site.now whole.entry tokens.items)) progress.old ≡ Ok progress.new)) }
    ensures follows { OnOk result (Follows progress.old progress.new) }
    ensures stop { IfErr result (λ stop.
        StopsAs (counted_if counts site.now.name.pp.place (length (argument_pieces site.now whole.entry tokens.items)) progress.old) stop) }
{
    let mut placed = tokens;
    place(
        alloc,
        site,
        whole.token,
        whole.parameter,
        whole.occurrence,
        placed.as_mut_slice(),
    )?;
    count_if(
        progress,
        counts,
        place_of(site),
        token_count(placed.as_slice()),
    )?;
    Ok(placed)
}
