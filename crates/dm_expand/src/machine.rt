ghost use Rattle.std.specs.Prelude.{◌≡◌, ◌≤◌, ◌<◌, ◌+◌, ◌-◌, suc, not, List as Sequence, [], ◌∷◌, ◌++◌, map, IfOk, IfErr, OnOk, Ok, length};
ghost use Rattle.dm_token.specs.declared.expansion.Mark.TheVariants.{Expansion};
ghost use Rattle.dm_expand.specs.Laws.{AreNoNames, Follows};
ghost use Rattle.dm_expand.specs.Steps.{Progress as Progressed};
ghost use Rattle.dm_expand.specs.declared.machine.Level.{Level as Outer};
ghost use Rattle.dm_expand.specs.Substitution.{argument_for as given};
ghost use Rattle.dm_expand.specs.Expansion as expansion;
ghost use Rattle.dm_expand.specs.Items.{Item as Entry};
ghost use Rattle.dm_expand.specs.Expansion.{Macros as LookedUp, expanded, token_of};
ghost use Rattle.dm_expand.specs.Views.{StopsAs, IsWithin, pieces_in};
ghost use Rattle.dm_expand.specs.HeadViews.{macros_of, site_with};
ghost use Rattle.dm_expand.specs.ListViews.{gives, fills, tokens_before};
ghost use Rattle.dm_expand.specs.Works.{outward, load, completed, completed_from, completed_whole, waits_in, taken_up, scanned_on, invoked_on, passed_on, found_on, ArePut, IsEnd, IsLastPlace};

use crate::arguments::next_of;
use crate::extension::Extensions;
use crate::fill::argument_for;
use crate::head::{Head, Invocation, Macros, head_of, names_nothing};
use crate::hidden::Hidden;
use crate::item::{Item, copied};
use crate::needs::{stay, take_argument};
use crate::paste::{Pieces, Site};
use crate::progress::Progress;
use crate::queue::Queue;
use crate::stretch::Stretch;
use crate::substitute::{Whole, complete, fill_from, fill_whole};
use dm_macro::Body;
use dm_route::{Joining, grown};
use dm_token::{List, Mark, Memory, Place, Refusal, Stop, Token, refusals};
use std::alloc::Global;
use std::collections::VecDeque;
use std::mem;

/// How many tokens the outermost list gathers before they are put out.
const GATHERED: usize = 256;

/// A list that is expanded: what is still to be scanned, and what was put out before it.
#[derive(Drop)]
pub struct Level {
    pub rest: Queue,
    pub out: Vec<Item>,
}

/// A replacement in the making: its expansion, the hide set that it gets, the macro's replacement list, and the pieces of the
/// parts that are filled.
#[derive(Drop)]
pub struct Filling<'a> {
    pub site: Site,
    pub hidden: Hidden,
    pub body: Body<'a>,
    pub pieces: Pieces,
}

/// A replacement that waits for the expansion of an argument, with the list that it goes into.
#[derive(Drop)]
pub struct Waiting<'a> {
    pub level: Level,
    pub filling: Filling<'a>,
    pub whole: Whole<'a>,
}

// The expansion with this number for an invocation.
#[tactic(auto, unfolding(crate::specs::Trails::body_trail))]
fn site_of(
    alloc: Global,
    definition: u32,
    instance: u32,
    name: Item,
    arguments: List<Stretch>,
) -> Result<Site, Memory>
    ensures { IfOk result (λ site. site ≡ site_with name (Expansion definition instance) arguments) }
{
    let mark = Mark::Expansion {
        definition,
        instance,
    };
    let way = name.trail.trail(alloc)?;
    let inside = grown(&way, mark)?;
    Ok(Site {
        name,
        mark,
        arguments,
        inside,
    })
}

// The refusal of an invocation whose arguments don't fit, at its name.
#[tactic(auto, unfolding(crate::specs::Expansion::no_arguments))]
fn no_arguments(place: Place) -> Stop
    ensures { result ≡ expansion.no_arguments place }
{
    Stop::Refused(Refusal {
        number: refusals::ARGUMENTS,
        detail: 0,
        place,
    })
}

// Makes an argument's list the one that is expanded, and the one before it waits.
fn enter<'a>(
    alloc: Global,
    filling: Filling<'a>,
    whole: Whole<'a>,
    level: &mut Level,
    waiting: &mut Vec<Waiting<'a>>,
) -> Result<(), Memory>
    requires inside { whole.behind ≤ length filling.body.definition.now.body }
    requires last { IsLastPlace filling.body.definition.now whole }
    ensures ok { OnOk result ((macros : LookedUp) (progress : Progressed) →
        outward macros waiting.old.items (completed_whole macros level.old filling.entry whole.entry progress)
        ≡ outward macros waiting.new.items (scanned_on macros level.new progress)) }
    ensures load { OnOk result (load waiting.new.items ≡ load waiting.old.items + suc (length filling.entry.body.definition.now.body - whole.entry.behind)) }
{
    let mut filling = filling;
    let body = filling.body;
    let argument = take_argument(alloc, &mut filling.site, body.definition, whole)?;
    let inner = Level {
        rest: Queue::of(alloc, argument),
        out: Vec::new(alloc),
    };
    let mut outer = mem::replace(level, inner);
    outer.rest.give_back()?;
    waiting.push(Waiting {
        level: outer,
        filling,
        whole,
    })?;
    Ok(())
}

// Puts a replacement before what follows its invocation.
fn leave(
    alloc: Global,
    filling: Filling,
    level: &mut Level,
    progress: &mut Progress,
) -> Result<(), Stop>
    requires { IsWithin progress.old }
    ensures ok { OnOk result ((macros : LookedUp) →
        completed macros level.old filling.entry.site filling.entry.hidden filling.entry.body.definition.now (Ok (fills (pieces_in filling.entry.pieces) progress.old))
        ≡ scanned_on macros level.new progress.new) }
    ensures follows { OnOk result (Follows progress.old progress.new) }
    ensures stop { IfErr result (λ stop. (macros : LookedUp) →
        StopsAs (completed macros level.old filling.entry.site filling.entry.hidden filling.entry.body.definition.now (Ok (fills (pieces_in filling.entry.pieces) progress.old))) stop) }
{
    let Filling {
        site,
        hidden,
        body,
        pieces,
    } = filling;
    let tokens = complete(alloc, &site, &hidden, body, pieces, progress)?;
    level.rest.put_before(tokens)?;
    Ok(())
}

// Fills in a parameter whose argument expands to these tokens.
fn fill_in<'a>(
    macros: &Macros<'a>,
    filling: Filling<'a>,
    whole: Whole<'a>,
    tokens: Vec<Item>,
    progress: &mut Progress,
) -> Result<Filling<'a>, Stop>
    requires { IsWithin progress.old }
    ensures ok { IfOk result (λ filled. (level : Outer) →
        taken_up (macros_of macros.now) (waits_in level filling.entry whole.entry) (Ok (gives tokens.items progress.old)) ≡ completed_from (macros_of macros.now) level filled whole.entry.behind progress.new) }
    ensures body { IfOk result (λ filled. filled.body.definition.now ≡ filling.entry.body.definition.now) }
    ensures follows { OnOk result (Follows progress.old progress.new) }
    ensures stop { IfErr result (λ stop. (level : Outer) →
        StopsAs (taken_up (macros_of macros.now) (waits_in level filling.entry whole.entry) (Ok (gives tokens.items progress.old))) stop) }
{
    let mut filling = filling;
    let counts = !filling.body.pastes;
    let more = fill_whole(macros.alloc, &filling.site, whole, tokens, counts, progress)?;
    filling.pieces.append(more)?;
    Ok(filling)
}

// Fills in a parameter whose argument is its own expansion.
fn fill_at_once<'a>(
    macros: &Macros<'a>,
    filling: Filling<'a>,
    whole: Whole<'a>,
    progress: &mut Progress,
) -> Result<Filling<'a>, Stop>
    requires within { IsWithin progress.old }
    requires last { IsLastPlace filling.body.definition.now whole }
    requires stays { AreNoNames (macros_of macros.now) (given filling.site whole.parameter) }
    ensures ok { IfOk result (λ filled. (level : Outer) →
        completed_whole (macros_of macros.now) level filling.entry whole.entry progress.old ≡ completed_from (macros_of macros.now) level filled whole.entry.behind progress.new) }
    ensures body { IfOk result (λ filled. filled.body.definition.now ≡ filling.entry.body.definition.now) }
    ensures follows { OnOk result (Follows progress.old progress.new) }
    ensures stop { IfErr result (λ stop. (level : Outer) → StopsAs (completed_whole (macros_of macros.now) level filling.entry whole.entry progress.old) stop) }
{
    let mut filling = filling;
    let body = filling.body;
    let argument = take_argument(macros.alloc, &mut filling.site, body.definition, whole)?;
    let tokens = copied(macros.alloc, argument.items())?;
    let filled = fill_in(macros, filling, whole, tokens, progress)?;
    Ok(filled)
}

// Goes on with a replacement from one of its parts on.
fn go_on<'a>(
    macros: &Macros<'a>,
    filling: Filling<'a>,
    from: usize,
    level: &mut Level,
    waiting: &mut Vec<Waiting<'a>>,
    progress: &mut Progress,
) -> Result<(), Stop>
    requires { IsWithin progress.old }
    ensures ok { OnOk result (outward (macros_of macros.now) waiting.old.items (completed_from (macros_of macros.now) level.old filling.entry from progress.old)
        ≡ outward (macros_of macros.now) waiting.new.items (scanned_on (macros_of macros.now) level.new progress.new)) }
    ensures follows { OnOk result (Follows progress.old progress.new) }
    ensures load { OnOk result (load waiting.new.items ≤ load waiting.old.items + (length filling.entry.body.definition.now.body - from)) }
    ensures stop { IfErr result (λ stop. StopsAs (completed_from (macros_of macros.now) level.old filling.entry from progress.old) stop) }
{
    let alloc = macros.alloc;
    let mut filling = filling;
    let mut next = from;
    'parts: loop {
        let mine = &mut filling;
        let counts = !mine.body.pastes;
        let left = fill_from(
            alloc,
            &mine.site,
            mine.body,
            next,
            counts,
            progress,
            &mut mine.pieces,
        )?;
        let Some(whole) = left else {
            leave(alloc, filling, level, progress)?;
            return Ok(());
        };
        if !stay(macros, argument_for(&filling.site, whole.parameter)) {
            enter(alloc, filling, whole, level, waiting)?;
            return Ok(());
        }
        filling = fill_at_once(macros, filling, whole, progress)?;
        next = whole.behind;
    }
}

// Takes up a replacement that waited for the expansion of an argument, which is put out now.
fn take_up<'a>(
    macros: &Macros<'a>,
    waits: Waiting<'a>,
    level: &mut Level,
    waiting: &mut Vec<Waiting<'a>>,
    progress: &mut Progress,
) -> Result<(), Stop>
    requires { IsWithin progress.old }
    ensures ok { OnOk result (outward (macros_of macros.now) waiting.old.items (taken_up (macros_of macros.now) waits.entry (Ok (gives level.old.out.items progress.old)))
        ≡ outward (macros_of macros.now) waiting.new.items (scanned_on (macros_of macros.now) level.new progress.new)) }
    ensures follows { OnOk result (Follows progress.old progress.new) }
    ensures load { OnOk result (load waiting.new.items < load waiting.old.items + suc (length waits.entry.filling.body.definition.now.body - waits.entry.whole.behind)) }
    ensures stop { IfErr result (λ stop. StopsAs (taken_up (macros_of macros.now) waits.entry (Ok (gives level.old.out.items progress.old))) stop) }
{
    let Waiting {
        level: outer,
        filling,
        whole,
    } = waits;
    let Level { rest: _, out } = mem::replace(level, outer);
    let filled = fill_in(macros, filling, whole, out, progress)?;
    go_on(macros, filled, whole.behind, level, waiting, progress)?;
    Ok(())
}

// Does what the case at the head of a list asks for, unless a macro is to be replaced.
fn scan_next<'a>(
    macros: &Macros<'a>,
    extensions: &mut Extensions,
    progress: &Progress,
    item: Item,
    level: &mut Level,
) -> Result<Option<Invocation<'a>>, Stop>
    requires { IsWithin progress.now }
    ensures found { IfOk result (λ found.
        tokens_before level.old.out.items (expanded (macros_of macros.now) (item ∷ level.old.rest) progress.now) ≡ passed_on (macros_of macros.now) level.new found progress.now) }
    ensures shorter { OnOk result (length level.new.rest ≤ length level.old.rest) }
    ensures stop { IfErr result (λ stop.
        StopsAs (tokens_before level.old.out.items (expanded (macros_of macros.now) (item ∷ level.old.rest) progress.now)) stop) }
{
    if names_nothing(macros, &item) {
        level.out.push(item)?;
        return Ok(None);
    }
    let place = item.pp.place;
    match head_of(macros, extensions, progress, item, &mut level.rest)? {
        Head::Put(item) => {
            level.out.push(item)?;
            Ok(None)
        }
        Head::Replace(invocation) => Ok(Some(invocation)),
        Head::Refuse => Err(no_arguments(place)),
    }
}

// Puts out tokens of a list, without their hide sets.
fn put_all(out: &mut Vec<Item>, put: &mut Vec<Token>) -> Result<(), Memory>
    ensures put { OnOk result (put.new.items ≡ put.old.items ++ map token_of out.old.items) }
    ensures nothing { OnOk result (out.new.items ≡ []) }
{
    let alloc = *put.allocator();
    let mut joining = Joining::new(alloc);
    let mut left = VecDeque::from(mem::replace(out, Vec::new(alloc)));
    'tokens: while let Some(item) = next_of(&mut left) {
        put.push(item.into_token(&mut joining)?)?;
    }
    *out = left.into_vec();
    Ok(())
}

// Puts out what the outermost list has gathered, once that is much, and gives back room that it has left.
fn put_some(outermost: bool, level: &mut Level, put: &mut Vec<Token>) -> Result<(), Memory>
    ensures { OnOk result ((more : Sequence Entry) × ArePut outermost put.old.items more put.new.items × (level.old.out.items ≡ more ++ level.new.out.items) × (level.new.rest ≡ level.old.rest)) }
{
    if outermost && level.out.len() >= GATHERED {
        put_all(&mut level.out, put)?;
        level.rest.give_back()?;
    }
    Ok(())
}

// Scans a list up to the next macro that is to be replaced. Of the outermost one the tokens are put out as they come.
fn scan<'a>(
    macros: &Macros<'a>,
    extensions: &mut Extensions,
    progress: &Progress,
    outermost: bool,
    level: &mut Level,
    put: &mut Vec<Token>,
) -> Result<Option<Invocation<'a>>, Stop>
    requires { IsWithin progress.now }
    ensures found { IfOk result (λ found. (more : Sequence Entry) × ArePut outermost put.old.items more put.new.items
        × (scanned_on (macros_of macros.now) level.old progress.now ≡ tokens_before more (found_on (macros_of macros.now) level.new found progress.now))) }
    ensures stop { IfErr result (λ stop. StopsAs (scanned_on (macros_of macros.now) level.old progress.now) stop) }
{
    'tokens: while let Some(item) = level.rest.next()? {
        let found = scan_next(macros, extensions, progress, item, level)?;
        put_some(outermost, level, put)?;
        if found.is_some() {
            return Ok(found);
        }
    }
    Ok(None)
}

// Goes on up to the next macro that is to be replaced.
fn advance<'a>(
    macros: &Macros<'a>,
    extensions: &mut Extensions,
    level: &mut Level,
    waiting: &mut Vec<Waiting<'a>>,
    progress: &mut Progress,
    put: &mut Vec<Token>,
) -> Result<Option<Invocation<'a>>, Stop>
    requires { IsWithin progress.old }
    ensures found { IfOk result (λ found. (more : Sequence Entry) × (put.new.items ≡ put.old.items ++ map token_of more)
        × (outward (macros_of macros.now) waiting.old.items (scanned_on (macros_of macros.now) level.old progress.old)
        ≡ tokens_before more (outward (macros_of macros.now) waiting.new.items (found_on (macros_of macros.now) level.new found progress.new)))) }
    ensures end { IfOk result (IsEnd waiting.new.items) }
    ensures follows { OnOk result (Follows progress.old progress.new) }
    ensures stop { IfErr result (λ stop.
        StopsAs (outward (macros_of macros.now) waiting.old.items (scanned_on (macros_of macros.now) level.old progress.old)) stop) }
{
    'levels: loop {
        let outermost = waiting.is_empty();
        let found = scan(macros, extensions, progress, outermost, level, put)?;
        if found.is_some() {
            return Ok(found);
        }
        let Some(waits) = waiting.pop() else {
            return Ok(None);
        };
        take_up(macros, waits, level, waiting, progress)?;
    }
}

// A macro is replaced, as far as no argument is to be expanded first.
fn replace<'a>(
    macros: &Macros<'a>,
    invocation: Invocation<'a>,
    level: &mut Level,
    waiting: &mut Vec<Waiting<'a>>,
    progress: &mut Progress,
) -> Result<(), Stop>
    requires { IsWithin progress.old }
    ensures ok { OnOk result (outward (macros_of macros.now) waiting.old.items (invoked_on (macros_of macros.now) level.old invocation.entry progress.old)
        ≡ outward (macros_of macros.now) waiting.new.items (scanned_on (macros_of macros.now) level.new progress.new)) }
    ensures follows { OnOk result (Follows progress.old progress.new) }
    ensures rises { OnOk result (progress.old.spent < progress.new.spent) }
    ensures stop { IfErr result (λ stop. StopsAs (invoked_on (macros_of macros.now) level.old invocation.entry progress.old) stop) }
{
    let Invocation {
        found,
        name,
        arguments,
        hidden,
        foreign,
    } = invocation;
    let instance = progress.next_instance();
    progress.begin(found.number, &name, foreign)?;
    let site = site_of(macros.alloc, found.number, instance, name, arguments)?;
    let filling = Filling {
        site,
        hidden,
        body: found.body,
        pieces: Pieces::new(macros.alloc),
    };
    go_on(macros, filling, 0, level, waiting, progress)?;
    Ok(())
}

/// The complete expansion of a list of tokens, as they are put out.
pub fn expand_list(
    macros: &Macros,
    tokens: Vec<Item>,
    progress: &mut Progress,
) -> Result<Vec<Token>, Stop>
    requires { IsWithin progress.old }
    ensures ok { IfOk result (λ put. (out : Sequence Entry) × (put.items ≡ map token_of out) × (expansion.expanded (macros_of macros.now) tokens.items progress.old ≡ Ok (gives out progress.new))) }
    ensures follows { OnOk result (Follows progress.old progress.new) }
    ensures stop { IfErr result (λ stop. StopsAs (expansion.expanded (macros_of macros.now) tokens.items progress.old) stop) }
{
    let source = Stretch::of(macros.alloc, tokens)?;
    let mut level = Level {
        rest: Queue::of(macros.alloc, source),
        out: Vec::new(macros.alloc),
    };
    let mut waiting = Vec::new(macros.alloc);
    let mut extensions = Extensions::new(macros.alloc);
    let mut put = Vec::new(macros.alloc);
    'expansions: while let Some(invocation) = advance(
        macros,
        &mut extensions,
        &mut level,
        &mut waiting,
        progress,
        &mut put,
    )? {
        replace(macros, invocation, &mut level, &mut waiting, progress)?;
    }
    put_all(&mut level.out, &mut put)?;
    Ok(put)
}
