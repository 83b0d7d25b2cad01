ghost use Rattle.std.specs.Prelude.{◌≡◌, ◌≤◌, [], ◌∷◌, ◌++◌, List, None, IfOk, OnOk, IsTrue, length, option_map};
ghost use Rattle.std.specs.FinSet as set;
ghost use Rattle.dm_expand.specs.Items.{Item as Token};
ghost use Rattle.dm_expand.specs.Arguments as arguments;
ghost use Rattle.dm_expand.specs.Expansion as expansion;
ghost use Rattle.dm_expand.specs.Laws.{IsNoName};
ghost use Rattle.dm_expand.specs.Trails as trails;
ghost use Rattle.dm_expand.specs.HeadViews.{macros_of, macro_value, head_value, replace_with, Stays, PutsNothing};

use crate::arguments::{Enclosed, arguments_of};
use crate::extension::Extensions;
use crate::hidden::Hidden;
use crate::item::Item;
use crate::predefined::{may_be_predefined, replaced};
use crate::progress::Progress;
use crate::queue::Queue;
use crate::stretch::Stretch;
use crate::trails::begins_with;
use dm_macro::{Body, MacroTable, is_identifier, is_left_parenthesis};
use dm_token::{List, Memory, PpToken, Text, Trail};
use std::alloc::Global;

/// What an expansion looks up: the macros, and the files' names.
#[derive(Clone, Copy)]
pub struct Macros<'a> {
    pub alloc: Global,
    pub table: &'a MacroTable,
    pub files: &'a [Text],
}

/// A definition with its number, and with what the tokens of its replacement list are.
#[derive(Clone, Copy)]
pub struct Macro<'a> {
    pub number: u32,
    pub body: Body<'a>,
}

/// An invocation of a macro: the definition, the name, the arguments, the hide set that its replacement gets, and whether
/// some token from its `(` to its `)` came by another way than its name.
#[derive(Drop)]
pub struct Invocation<'a> {
    pub found: Macro<'a>,
    pub name: Item,
    pub arguments: List<Stretch>,
    pub hidden: Hidden,
    pub foreign: bool,
}

/// What is done at the head of a list of tokens.
#[derive(Drop)]
pub enum Head<'a> {
    /// The token is put out.
    Put(Item),
    /// A macro is replaced.
    Replace(Invocation<'a>),
    /// The invocation has no arguments that fit.
    Refuse,
}

// The macro whose name a token is.
#[tactic(auto, unfolding(crate::specs::Expansion::macro_of, crate::specs::Expansion::numbered))]
fn macro_of<'a>(macros: &Macros<'a>, token: &PpToken) -> Option<Macro<'a>>
    ensures { option_map macro_value result ≡ expansion.macro_of (macros_of macros.now) token.now }
{
    if !is_identifier(token) {
        return None;
    }
    let number = macros.table.get(&token.spelling)?;
    Some(Macro {
        number,
        body: macros.table.body(number),
    })
}

// Whether no macro has a token's name.
#[tactic(auto, unfolding(crate::specs::Expansion::macro_of, crate::specs::Expansion::numbered))]
fn is_no_macro(macros: &Macros, token: &PpToken) -> bool
    ensures { IsTrue result → expansion.macro_of (macros_of macros.now) token.now ≡ None }
{
    macro_of(macros, token).is_none()
}

/// Whether it is sure that a token stays as it is, since it names no macro and nothing that is predefined.
pub fn names_nothing(macros: &Macros, item: &Item) -> bool
    ensures { IsTrue result → IsNoName (macros_of macros.now) item.now }
{
    if !is_identifier(&item.pp) {
        return true;
    }
    !may_be_predefined(&item.pp) && is_no_macro(macros, &item.pp)
}

// An object-like macro's name.
#[tactic(auto, unfolding(crate::specs::Expansion::object_like))]
fn object_like<'a>(
    alloc: Global,
    extensions: &mut Extensions,
    found: Macro<'a>,
    name: Item,
) -> Result<Head<'a>, Memory>
    ensures { IfOk result (λ head. (rest : List Token) → head_value rest head ≡ expansion.object_like (macro_value found.entry) name rest) }
{
    let hidden = extensions.with(&name.hidden, found.number)?;
    Ok(Head::Replace(Invocation {
        found,
        name,
        arguments: List::new(alloc),
        hidden,
        foreign: false,
    }))
}

// A function-like macro's name, the `)` that closes the invocation, and the arguments.
fn with_arguments<'a>(
    extensions: &mut Extensions,
    found: Macro<'a>,
    name: Item,
    closing: &Item,
    foreign: bool,
    arguments: List<Stretch>,
) -> Result<Head<'a>, Memory>
    ensures puts_nothing { IfOk result PutsNothing }
    ensures head { IfOk result (λ head. (rest : List Token) → head_value rest head ≡ replace_with (macro_value found.entry) name arguments (set.insert (set.intersection name.hidden closing.now.hidden) found.entry.number) foreign rest) }
{
    let both = name.hidden.meet(&closing.hidden)?;
    let hidden = extensions.with(&both, found.number)?;
    Ok(Head::Replace(Invocation {
        found,
        name,
        arguments,
        hidden,
        foreign,
    }))
}

// Whether some token of an invocation didn't come by the way that the name came.
fn is_foreign(
    alloc: Global,
    name: &Item,
    opening: &Item,
    enclosed: &mut Enclosed,
) -> Result<bool, Memory>
    ensures foreign { IfOk result (λ foreign. foreign ≡ trails.come_otherwise name.now.trail (opening.now ∷ (enclosed.old.inside ++ enclosed.old.closing ∷ []))) }
    ensures same { enclosed.new ≡ enclosed.old }
{
    let way = name.trail.trail(alloc)?;
    let foreign = comes_otherwise(alloc, &way, opening, enclosed)?;
    Ok(foreign)
}

// Whether some token from a `(` to its `)` didn't come by this way.
fn comes_otherwise(
    alloc: Global,
    way: &Trail,
    opening: &Item,
    enclosed: &mut Enclosed,
) -> Result<bool, Memory>
    ensures foreign { IfOk result (λ foreign. foreign ≡ trails.come_otherwise way.now (opening.now ∷ (enclosed.old.inside ++ enclosed.old.closing ∷ []))) }
    ensures same { enclosed.new ≡ enclosed.old }
{
    let opens = begins_with(alloc, way, &opening.trail)?;
    if !opens {
        return Ok(true);
    }
    let closing = &enclosed.closing;
    let closes = begins_with(alloc, way, &closing.trail)?;
    if !closes {
        return Ok(true);
    }
    let other = enclosed.inside.comes_otherwise(way)?;
    Ok(other)
}

// A function-like macro's name and a `(`, and what follows it.
#[tactic(auto, unfolding(crate::specs::Expansion::enclosing, crate::specs::Expansion::with_arguments))]
fn enclosing<'a>(
    alloc: Global,
    extensions: &mut Extensions,
    found: Macro<'a>,
    name: Item,
    opening: &Item,
    rest: &mut Queue,
) -> Result<Head<'a>, Memory>
    ensures puts_nothing { IfOk result PutsNothing }
    ensures head { IfOk result (λ head. head_value rest.new head ≡ expansion.enclosing (macro_value found.entry) name opening.now (arguments.enclosed_in 0 rest.old)) }
    ensures shorter { OnOk result (length rest.new ≤ length rest.old) }
{
    let Some(mut enclosed) = rest.take_enclosed()? else {
        return Ok(Head::Refuse);
    };
    let foreign = is_foreign(alloc, &name, opening, &mut enclosed)?;
    let Enclosed { inside, closing } = enclosed;
    let Some(arguments) = arguments_of(alloc, found.body.definition, inside)? else {
        return Ok(Head::Refuse);
    };
    let head = with_arguments(extensions, found, name, &closing, foreign, arguments)?;
    Ok(head)
}

// A function-like macro's name, and what follows it.
#[tactic(auto, unfolding(crate::specs::Expansion::function_like, crate::specs::Arguments::opens))]
fn function_like<'a>(
    alloc: Global,
    extensions: &mut Extensions,
    found: Macro<'a>,
    name: Item,
    rest: &mut Queue,
) -> Result<Head<'a>, Memory>
    ensures stays { IfOk result (λ head. Stays head rest.old rest.new) }
    ensures head { IfOk result (λ head. head_value rest.new head ≡ expansion.function_like (macro_value found.entry) name rest.old) }
    ensures shorter { OnOk result (length rest.new ≤ length rest.old) }
{
    let Some(next) = rest.next()? else {
        return Ok(Head::Put(name));
    };
    if !is_left_parenthesis(&next.pp) {
        rest.put_back(next)?;
        return Ok(Head::Put(name));
    }
    let head = enclosing(alloc, extensions, found, name, &next, rest)?;
    Ok(head)
}

// A macro's name that isn't hidden, and what follows it.
#[tactic(auto, unfolding(crate::specs::Expansion::invoked))]
fn invoked<'a>(
    alloc: Global,
    extensions: &mut Extensions,
    found: Macro<'a>,
    name: Item,
    rest: &mut Queue,
) -> Result<Head<'a>, Memory>
    ensures stays { IfOk result (λ head. Stays head rest.old rest.new) }
    ensures head { IfOk result (λ head. head_value rest.new head ≡ expansion.invoked (macro_value found.entry) found.entry.body.definition.now.parameters name rest.old) }
    ensures shorter { OnOk result (length rest.new ≤ length rest.old) }
{
    match &found.body.definition.parameters {
        None => {
            let head = object_like(alloc, extensions, found, name)?;
            Ok(head)
        }
        Some(_) => {
            let head = function_like(alloc, extensions, found, name, rest)?;
            Ok(head)
        }
    }
}

/// The case at the head of a list: a token, and what follows it. What belongs to an invocation is taken from there.
#[tactic(auto, unfolding(crate::specs::Expansion::head_of, crate::specs::Expansion::head_by))]
pub fn head_of<'a>(
    macros: &Macros<'a>,
    extensions: &mut Extensions,
    progress: &Progress,
    item: Item,
    rest: &mut Queue,
) -> Result<Head<'a>, Memory>
    ensures stays { IfOk result (λ head. Stays head rest.old rest.new) }
    ensures head { IfOk result (λ head. head_value rest.new head ≡ expansion.head_of (macros_of macros.now) progress.now item rest.old) }
    ensures shorter { OnOk result (length rest.new ≤ length rest.old) }
{
    let Some(found) = macro_of(macros, &item.pp) else {
        let out = replaced(macros.alloc, macros.files, progress, item)?;
        return Ok(Head::Put(out));
    };
    if item.hidden.holds(found.number) {
        return Ok(Head::Put(item));
    }
    let head = invoked(macros.alloc, extensions, found, item, rest)?;
    Ok(head)
}
