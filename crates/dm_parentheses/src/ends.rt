ghost use Rattle.std.specs.Prelude.{◌≡◌, ◌+◌, ◌^◌, ◌<◌, ◌≤◌, ◌∷◌, [], drop, length, slice_get, suc, option_map, option_and_then, IfOk, IfSome, OnOk};
ghost use Rattle.std.specs.Option.{ForSome};
ghost use Rattle.dm_parentheses.specs.Parentheses.{closes, before_end, before_closing, index_from};
ghost use Rattle.dm_parentheses.specs.Table.{closes_at};

use crate::sign::Sign;
use dm_token::Memory;
use std::alloc::Global;
use std::collections::VecDeque;
use std::marker::Model;

/// For each token of a list, how many tokens stand between it and the first comma or `)` from it on that no parentheses between
/// them enclose. Contracts see what each token is.
#[derive(Drop)]
pub struct Ends {
    tokens: VecDeque<Token>,
}

// What a token is, and how many tokens stand before the end from it on.
#[derive(Drop)]
struct Token {
    sign: Sign,
    distance: Option<usize>,
}

impl Model for Ends {
    ghost use Rattle.std.specs.Prelude.{◌≡◌, List};
    ghost use Rattle.dm_parentheses.specs.declared.sign.Sign.{Sign};
    ghost use Rattle.dm_parentheses.specs.Table.{all_ends, signs_of, distances_of};

    ghost Value = { List Sign };

    ghost view = { λ ends. signs_of ends.tokens.items };

    ghost invariant = { λ ends. distances_of ends.tokens.items ≡ all_ends (signs_of ends.tokens.items) };
}

impl Ends {
    /// The table of a list. It takes time in proportion to the list.
    pub fn of(alloc: Global, signs: Vec<Sign>) -> Result<Ends, Memory>
        ensures { IfOk result (λ ends. ends ≡ signs.items) }
    {
        let mut left = signs;
        let mut ends = Ends::none(alloc);
        'signs: while let Some(sign) = left.pop() {
            ends.put_in_front(sign)?;
        }
        Ok(ends)
    }

    // The table of no token.
    fn none(alloc: Global) -> Ends
        ensures { result ≡ [] }
    {
        Ends {
            tokens: VecDeque::new(alloc),
        }
    }

    // One token more in front. The others stay as far from their ends as they were.
    fn put_in_front(&mut self, sign: Sign) -> Result<(), Memory>
        ensures { OnOk result (self.new ≡ sign ∷ self.old) }
    {
        let distance = self.distance_from(sign);
        self.tokens.push_front(Token { sign, distance })?;
        Ok(())
    }

    // How many tokens stand before the end, from a token in front of these on.
    fn distance_from(&self, sign: Sign) -> Option<usize>
        ensures { result ≡ before_end 0 (sign ∷ self.now) }
    {
        match sign {
            Sign::Closing | Sign::Comma => Some(0),
            Sign::Other => one_more(self.end_inside(0)),
            Sign::Opening => one_more(self.end_behind_opening()),
        }
    }

    // How many tokens stand before the end, from behind a `(` on that stands in front of these.
    fn end_behind_opening(&self) -> Option<usize>
        ensures is { result ≡ before_end 1 self.now }
        ensures inside { IfSome result (λ end. end + 1 < 2 ^ 64) }
    {
        let closing = self.closing_inside(0)?;
        self.end_inside(closing + 1)
    }

    /// What a token of the list is.
    pub fn sign(&self, index: usize) -> Option<Sign>
        ensures { result ≡ slice_get self.now index }
    {
        Some(self.tokens.get(index)?.sign)
    }

    /// The index of the first comma or `)` from an index on that no parentheses between them enclose.
    pub fn end(&self, from: usize) -> Option<usize>
        ensures { result ≡ index_from from (before_end 0 (drop from self.now)) }
    {
        self.end_inside(from)
    }

    // The same, with where it is.
    fn end_inside(&self, from: usize) -> Option<usize>
        ensures is { result ≡ index_from from (before_end 0 (drop from self.now)) }
        ensures inside { IfSome result (λ end. (from ≤ end) × (end < length self.now) × (length self.now < 2 ^ 64)) }
    {
        let distance = distance_at(&self.tokens, from)?;
        Some(from + distance)
    }

    /// The index of the `)` that closes, from an index on behind its `(`.
    pub fn closing(&self, from: usize) -> Option<usize>
        ensures { result ≡ index_from from (before_closing 0 (drop from self.now)) }
    {
        self.closing_inside(from)
    }

    // The same, with where it is. It is found from comma to comma.
    fn closing_inside(&self, from: usize) -> Option<usize>
        ensures is { result ≡ index_from from (before_closing 0 (drop from self.now)) }
        ensures inside { IfSome result (λ closing. (closing < length self.now) × (length self.now < 2 ^ 64)) }
    {
        let mut behind = from;
        'ends: while let Some(end) = self.end_inside(behind) {
            if self.closes(end) {
                return Some(end);
            }
            behind = end + 1;
        }
        None
    }

    // Whether a token closes what a `(` opened.
    fn closes(&self, index: usize) -> bool
        ensures { result ≡ closes_at self.now index }
    {
        match self.sign(index) {
            Some(sign) => is_closing(sign),
            None => false,
        }
    }
}

// Whether it is a `)`.
#[tactic(auto, unfolding(crate::specs::Parentheses::closes))]
fn is_closing(sign: Sign) -> bool
    ensures { result ≡ closes sign }
{
    match sign {
        Sign::Closing => true,
        Sign::Opening | Sign::Comma | Sign::Other => false,
    }
}

// The distance that stands at a place of a table.
fn distance_at(tokens: &VecDeque<Token>, index: usize) -> Option<usize>
    ensures { result ≡ option_and_then (λ token. token.distance) (slice_get tokens.now.items index) }
{
    tokens.get(index)?.distance
}

// A distance from one token further in front.
fn one_more(distance: Option<usize>) -> Option<usize>
    requires { ForSome distance (λ distance. distance + 1 < 2 ^ 64) }
    ensures { result ≡ option_map (λ count. suc count) distance }
{
    match distance {
        None => None,
        Some(distance) => Some(distance + 1),
    }
}
