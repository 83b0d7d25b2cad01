ghost use Rattle.std.specs.Prelude.{◌≡◌, ◌≤◌, [], ◌∷◌, ◌++◌, IfOk, IfErr, OnOk, Ok, map, length};
ghost use Rattle.dm_expand.specs.Pastes as pastes;
ghost use Rattle.dm_expand.specs.Views.{StopsAs, piece_value, pieces_in, tokens_left, tokens_behind, all_before};

use crate::arguments::next_of;
use crate::hidden::Hidden;
use crate::item::Item;
use crate::stretch::Stretch;
use dm_lex::one_token;
use dm_route::Route;
use dm_token::{List, Mark, Memory, PpKind, PpToken, Refusal, Stop, Text, Trail, refusals};
use std::alloc::Global;
use std::collections::VecDeque;
use std::marker::Model;
use std::mem;

/// One expansion: the macro's name, the mark that its tokens get, and the arguments. Contracts see the three.
#[derive(Drop)]
pub struct Site {
    pub name: Item,
    pub mark: Mark,
    pub arguments: List<Stretch>,
    /// The trail of the name, with the mark.
    pub inside: Trail,
}

impl Model for Site {
    ghost use Rattle.dm_expand.specs.Pastes as pastes;
    ghost use Rattle.std.specs.Prelude.{◌≡◌};
    ghost use Rattle.dm_expand.specs.Trails.{body_trail};
    ghost use Rattle.std.specs.Coded.{codes, coded_ℕ};
    ghost use Rattle.std.specs.FinSet as set;
    ghost use Rattle.std.specs.Ordering.{nat_cmp};

    ghost Value = { pastes.Site };

    ghost coded = { Prim.hlevel (codes, set.code {R = nat_cmp} coded_ℕ) };

    ghost view = { λ site. record { name = site.name; mark = site.mark; arguments = site.arguments } };

    ghost invariant = { λ site. site.inside ≡ body_trail site.name.trail site.mark };
}

/// A piece of a replacement list: a token, a placemarker with whether its parameter has a blank before it, or a `##` of
/// the list.
#[derive(Drop)]
pub enum Piece {
    Token(Item),
    Placemarker(bool),
    Operator(Item),
}

/// Pieces of a replacement list: those up to the last one that isn't a token, and the tokens behind it. Where `##` isn't
/// in the list, they are all tokens.
#[derive(Drop)]
pub struct Pieces {
    pub front: Vec<Piece>,
    pub tokens: Vec<Item>,
}

impl Pieces {
    pub fn new(alloc: Global) -> Pieces
        ensures { pieces_in result ≡ [] }
    {
        Pieces {
            front: Vec::new(alloc),
            tokens: Vec::new(alloc),
        }
    }

    /// Adds a piece.
    pub fn push(&mut self, piece: Piece) -> Result<(), Memory>
        ensures { OnOk result (pieces_in self.new ≡ pieces_in self.old ++ piece_value piece ∷ []) }
    {
        match piece {
            Piece::Token(item) => {
                self.tokens.push(item)?;
                Ok(())
            }
            Piece::Placemarker(blank) => self.push_behind(Piece::Placemarker(blank)),
            Piece::Operator(item) => self.push_behind(Piece::Operator(item)),
        }
    }

    /// Adds tokens.
    pub fn append(&mut self, items: Vec<Item>) -> Result<(), Memory>
        ensures { OnOk result (pieces_in self.new ≡ pieces_in self.old ++ map pastes.token items.items) }
    {
        let mut items = items;
        self.tokens.append(&mut items)?;
        Ok(())
    }

    // Adds a piece behind the tokens.
    fn push_behind(&mut self, piece: Piece) -> Result<(), Memory>
        ensures { OnOk result (pieces_in self.new ≡ pieces_in self.old ++ piece_value piece ∷ []) }
    {
        let tokens = mem::replace(&mut self.tokens, Vec::new(*self.front.allocator()));
        add_tokens(tokens, &mut self.front)?;
        self.front.push(piece)?;
        Ok(())
    }
}

/// The trail of the macro's name.
pub fn name_trail(site: &Site) -> &Trail
    ensures { result.now ≡ site.now.name.trail }
{
    match site.inside.parent() {
        None => &site.inside,
        Some(outer) => outer,
    }
}

// Adds tokens to pieces.
fn add_tokens(tokens: Vec<Item>, to: &mut Vec<Piece>) -> Result<(), Memory>
    ensures { OnOk result (map piece_value to.new.items ≡ map piece_value to.old.items ++ map pastes.token tokens.items) }
{
    let mut queue = VecDeque::from(tokens);
    'tokens: while let Some(item) = next_of(&mut queue) {
        to.push(Piece::Token(item))?;
    }
    Ok(())
}

/// A token that `#` or `##` makes: it has the place of the name whose expansion makes it.
#[tactic(auto, unfolding(crate::specs::Pastes::made))]
pub fn make_token(
    site: &Site,
    kind: PpKind,
    spelling: Text,
    blank: bool,
    hidden: Hidden,
) -> Result<Item, Memory>
    ensures { IfOk result (λ item. item ≡ pastes.made site.now kind spelling blank hidden) }
{
    let name = &site.name;
    let trail = site.inside.copy()?;
    let pp = PpToken {
        kind,
        spelling,
        place: name.pp.place,
        end: name.pp.end,
        blank_before: blank,
        line_first: false,
    };
    Ok(Item {
        pp,
        hidden,
        trail: Route::of(trail),
    })
}

// A token that has a placemarker beside it.
fn make_again(site: &Site, blank: bool, item: Item) -> Result<Item, Memory>
    ensures { IfOk result (λ made. made ≡ pastes.made site.now item.pp.kind item.pp.spelling blank item.hidden) }
{
    let Item {
        pp,
        hidden,
        trail: _,
    } = item;
    make_token(site, pp.kind, pp.spelling, blank, hidden)
}

// The spellings of two tokens, one behind the other.
fn spelled_together(alloc: Global, left: &Item, right: &Item) -> Result<Text, Memory>
    ensures { IfOk result (λ text. text ≡ left.now.pp.spelling ++ right.now.pp.spelling) }
{
    let mut bytes = Vec::from_slice(alloc, left.pp.spelling.bytes())?;
    bytes.extend_from_slice(right.pp.spelling.bytes())?;
    Text::from_vec(alloc, bytes)
}

// What isn't one token is refused at the name of the expansion.
fn no_token(site: &Site) -> Stop
    ensures { result ≡ pastes.no_token site.now }
{
    let name = &site.name;
    Stop::Refused(Refusal {
        number: refusals::PASTE,
        detail: 0,
        place: name.pp.place,
    })
}

// Two tokens, joined to one.
#[tactic(auto, unfolding(crate::specs::Pastes::joined_tokens, crate::specs::Pastes::joined_as))]
fn join_tokens(alloc: Global, site: &Site, left: &Item, right: &Item) -> Result<Piece, Stop>
    ensures ok { IfOk result (λ piece. pastes.joined_tokens site.now left.now right.now ≡ Ok (piece_value piece)) }
    ensures stop { IfErr result (λ stop. StopsAs (pastes.joined_tokens site.now left.now right.now) stop) }
{
    let spelling = spelled_together(alloc, left, right)?;
    let Some(kind) = one_token(alloc, &spelling)? else {
        return Err(no_token(site));
    };
    let hidden = left.hidden.meet(&right.hidden)?;
    let made = make_token(site, kind, spelling, left.pp.blank_before, hidden)?;
    Ok(Piece::Token(made))
}

// A placemarker, and the right operand of `##`.
#[tactic(auto, unfolding(crate::specs::Pastes::joined))]
fn join_nothing(site: &Site, blank: bool, right: Piece) -> Result<Piece, Memory>
    ensures { IfOk result (λ piece. pastes.joined site.now (piece_value (Piece.Placemarker blank)) (piece_value right) ≡ Ok (piece_value piece)) }
{
    match right {
        Piece::Placemarker(_) => Ok(Piece::Placemarker(blank)),
        Piece::Token(item) => Ok(Piece::Token(make_again(site, blank, item)?)),
        Piece::Operator(item) => Ok(Piece::Token(make_again(site, blank, item)?)),
    }
}

// A token, and the right operand of `##`.
#[tactic(auto, unfolding(crate::specs::Pastes::joined_with))]
fn join_token(alloc: Global, site: &Site, left: Item, right: Piece) -> Result<Piece, Stop>
    ensures ok { IfOk result (λ piece. pastes.joined_with site.now left (piece_value right) ≡ Ok (piece_value piece)) }
    ensures stop { IfErr result (λ stop. StopsAs (pastes.joined_with site.now left (piece_value right)) stop) }
{
    match right {
        Piece::Placemarker(_) => {
            let blank = left.pp.blank_before;
            Ok(Piece::Token(make_again(site, blank, left)?))
        }
        Piece::Token(item) => {
            let both = join_tokens(alloc, site, &left, &item)?;
            Ok(both)
        }
        Piece::Operator(item) => {
            let both = join_tokens(alloc, site, &left, &item)?;
            Ok(both)
        }
    }
}

// What `##` makes of its operands.
#[tactic(auto, unfolding(crate::specs::Pastes::joined))]
fn join(alloc: Global, site: &Site, left: Piece, right: Piece) -> Result<Piece, Stop>
    ensures ok { IfOk result (λ piece. pastes.joined site.now (piece_value left) (piece_value right) ≡ Ok (piece_value piece)) }
    ensures stop { IfErr result (λ stop. StopsAs (pastes.joined site.now (piece_value left) (piece_value right)) stop) }
{
    match left {
        Piece::Placemarker(blank) => {
            let both = join_nothing(site, blank, right)?;
            Ok(both)
        }
        Piece::Token(item) => {
            let both = join_token(alloc, site, item, right)?;
            Ok(both)
        }
        Piece::Operator(item) => {
            let both = join_token(alloc, site, item, right)?;
            Ok(both)
        }
    }
}

// Adds a piece's token to a list, unless the piece is a placemarker.
#[tactic(auto, unfolding(crate::specs::Pastes::tokens_of))]
fn put(piece: Piece, to: &mut Vec<Item>) -> Result<(), Memory>
    ensures { OnOk result (to.new.items ≡ to.old.items ++ pastes.tokens_of (piece_value piece ∷ [])) }
{
    match piece {
        Piece::Token(item) => {
            to.push(item)?;
            Ok(())
        }
        Piece::Operator(item) => {
            to.push(item)?;
            Ok(())
        }
        Piece::Placemarker(_) => Ok(()),
    }
}

// Goes on from a piece to what stands behind it: `##` joins it with what follows, and else it is done.
fn advance(
    alloc: Global,
    site: &Site,
    left: Piece,
    next: Piece,
    pieces: &mut VecDeque<Piece>,
    done: &mut Vec<Item>,
) -> Result<Piece, Stop>
    ensures ok { IfOk result (λ piece.
        all_before done.old.items (tokens_behind site.now (piece_value left) (piece_value next ∷ map piece_value pieces.old.items))
        ≡ all_before done.new.items (tokens_behind site.now (piece_value piece) (map piece_value pieces.new.items))) }
    ensures shorter { length pieces.new.items ≤ length pieces.old.items }
    ensures stop { IfErr result (λ stop.
        StopsAs (all_before done.old.items (tokens_behind site.now (piece_value left) (piece_value next ∷ map piece_value pieces.old.items))) stop) }
{
    match next {
        Piece::Operator(operator) => match next_of(pieces) {
            Some(right) => {
                let both = join(alloc, site, left, right)?;
                Ok(both)
            }
            None => {
                put(left, done)?;
                Ok(Piece::Operator(operator))
            }
        },
        Piece::Token(item) => {
            put(left, done)?;
            Ok(Piece::Token(item))
        }
        Piece::Placemarker(blank) => {
            put(left, done)?;
            Ok(Piece::Placemarker(blank))
        }
    }
}

// Does each `##`, from the left, and gives the tokens that are left when placemarkers are gone (6.10.3.3).
fn paste_all(alloc: Global, site: &Site, pieces: Vec<Piece>) -> Result<Vec<Item>, Stop>
    ensures ok { IfOk result (λ items. tokens_left site.now (map piece_value pieces.items) ≡ Ok items.items) }
    ensures stop { IfErr result (λ stop. StopsAs (tokens_left site.now (map piece_value pieces.items)) stop) }
{
    let mut queue = VecDeque::from(pieces);
    let mut done = Vec::new(alloc);
    let Some(first) = next_of(&mut queue) else {
        return Ok(done);
    };
    let mut left = first;
    'pieces: while let Some(next) = next_of(&mut queue) {
        left = advance(alloc, site, left, next, &mut queue, &mut done)?;
    }
    put(left, &mut done)?;
    Ok(done)
}

/// The same, which is nothing to do where all are tokens.
pub fn paste(alloc: Global, site: &Site, pieces: Pieces) -> Result<Vec<Item>, Stop>
    ensures ok { IfOk result (λ items. tokens_left site.now (pieces_in pieces) ≡ Ok items.items) }
    ensures stop { IfErr result (λ stop. StopsAs (tokens_left site.now (pieces_in pieces)) stop) }
{
    let Pieces { front, tokens } = pieces;
    let count = front.as_slice().len();
    if count == 0 {
        return Ok(tokens);
    }
    let mut all = front;
    add_tokens(tokens, &mut all)?;
    let done = paste_all(alloc, site, all)?;
    Ok(done)
}
