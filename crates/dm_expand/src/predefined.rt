ghost use Rattle.std.specs.Prelude.{◌≡◌, false, IfOk};
ghost use Rattle.std.specs.Fmt.{decimal};
ghost use Rattle.dm_expand.specs.Predefined as predefined;

use crate::item::Item;
use crate::progress::Progress;
use crate::trails::first_of;
use dm_macro::is_word;
use dm_token::{Mark, Memory, Place, PpKind, PpToken, Text};
use std::alloc::Global;

// The place of a token's root (6.10.8.1p1): the token itself, or the name of the first expansion that it came through.
#[tactic(auto, unfolding(crate::specs::Predefined::root_of))]
fn root_of(progress: &Progress, item: &Item) -> Place
    ensures { result ≡ predefined.root_of progress.now.expansions item.now.trail item.now.pp.place }
{
    match first_of(&item.trail) {
        Some(
            Mark::Expansion {
                definition: _,
                instance,
            },
        ) => progress.name_of(instance, item.pp.place),
        _ => item.pp.place,
    }
}

// A token in place of another, which keeps all but the kind and the spelling.
#[tactic(auto, unfolding(crate::specs::Predefined::in_place_of))]
fn in_place_of(item: Item, kind: PpKind, spelling: Text) -> Item
    ensures { result ≡ predefined.in_place_of item kind spelling }
{
    let mut item = item;
    item.pp.kind = kind;
    item.pp.spelling = spelling;
    item
}

// The string literal of a file's name.
#[tactic(auto, unfolding(crate::specs::Predefined::file_literal))]
fn file_literal(alloc: Global, names: &[Text], place: Place) -> Result<Text, Memory>
    ensures { IfOk result (λ text. text ≡ predefined.file_literal names.now place) }
{
    let mut bytes = Vec::new(alloc);
    bytes.push(b'"')?;
    if let Some(name) = names.get(place.file as usize) {
        bytes.extend_from_slice(name.bytes())?;
    }
    bytes.push(b'"')?;
    Text::from_vec(alloc, bytes)
}

// The digits of a line's number.
fn line_number(alloc: Global, line: u32) -> Result<Text, Memory>
    ensures { IfOk result (λ text. text ≡ decimal line) }
{
    let digits = format!(in alloc; "{line}")?;
    Text::from_bytes(alloc, digits.as_bytes())
}

/// Whether a token may be a predefined name: each begins with `_`.
pub fn may_be_predefined(token: &PpToken) -> bool
    ensures { result ≡ false → predefined.is_predefined token.now ≡ false }
{
    match token.spelling.bytes() {
        [] => false,
        [first, ..] => *first == b'_',
    }
}

/// Replaces a predefined name (6.10.8); any other token stays.
#[tactic(auto, unfolding(crate::specs::Predefined::predefined))]
pub fn replaced(
    alloc: Global,
    names: &[Text],
    progress: &Progress,
    item: Item,
) -> Result<Item, Memory>
    ensures { IfOk result (λ out. out ≡ predefined.predefined names.now (predefined.root_of progress.now.expansions item.trail item.pp.place) item) }
{
    if !may_be_predefined(&item.pp) {
        return Ok(item);
    }
    if is_word(&item.pp, b"__LINE__") {
        let spelling = line_number(alloc, root_of(progress, &item).line)?;
        return Ok(in_place_of(item, PpKind::Number, spelling));
    }
    if is_word(&item.pp, b"__FILE__") {
        let spelling = file_literal(alloc, names, root_of(progress, &item))?;
        return Ok(in_place_of(item, PpKind::Literal, spelling));
    }
    if is_word(&item.pp, b"__STDC__") || is_word(&item.pp, b"__STDC_HOSTED__") {
        return Ok(in_place_of(item, PpKind::Number, Text::from_bytes(alloc, b"1")?));
    }
    if is_word(&item.pp, b"__STDC_VERSION__") {
        return Ok(in_place_of(item, PpKind::Number, Text::from_bytes(alloc, b"201112L")?));
    }
    Ok(item)
}
