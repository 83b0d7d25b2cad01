//! What doesn't change while a unit is typed.

ghost use Rattle.std.specs.Prelude.{◌≡◌, IfOk};
ghost use Rattle.dm_token.specs.declared.stop.Stop.TheVariants.{Refused};
ghost use Rattle.dm_syn.specs.Sources.{symbol_at, spelling_at};
ghost use Rattle.dm_typing.specs.Known.{place_at};
ghost use Rattle.dm_typing.specs.Operators.{row_at, keyword_at};
ghost use Rattle.dm_typing.specs.Views.{source_of, refusal_at};

use dm_scope::Scopes;
use dm_syn::{Symbol, symbol_of};
use dm_token::refusals::TYPING;
use dm_token::{CToken, Class, Memory, Place, Refusal, Stop, Text};
use std::alloc::Global;

/// The tokens of a unit, and which functions with internal linkage it lacks.
#[derive(Drop)]
pub struct Typer<'a> {
    pub alloc: Global,
    pub tokens: &'a [CToken],
    /// Declares the names of the functions with internal linkage that the unit doesn't define.
    pub lacking: &'a Scopes,
}

impl Typer<'_> {
    /// The place of a token.
    pub fn place(&self, at: u32) -> Place
        ensures { result ≡ place_at (source_of self.now) at }
    {
        match self.tokens.get(at as usize) {
            Some(token) => token.place,
            None => Place {
                file: 0,
                byte: 0,
                line: 0,
                column: 0,
            },
        }
    }

    /// The spelling of a token, which is shared.
    #[tactic(auto, unfolding(dm_syn::specs::Sources::spelling_at))]
    pub fn spelling(&self, at: u32) -> Result<Text, Memory>
        ensures { IfOk result (λ text. text ≡ spelling_at (source_of self.now) at) }
    {
        match self.tokens.get(at as usize) {
            Some(token) => token.spelling.copy(),
            None => Text::new(self.alloc, ""),
        }
    }

    /// The terminal symbol of a token, where an identifier counts as one that names no type.
    #[tactic(auto, unfolding(dm_syn::specs::Sources::symbol_at))]
    pub fn symbol(&self, at: u32) -> Symbol
        ensures { result ≡ symbol_at (source_of self.now) at }
    {
        match self.tokens.get(at as usize) {
            Some(token) => symbol_of(token.class),
            None => Symbol::End,
        }
    }

    /// The row of a punctuator in the table of punctuators (6.4.6).
    pub fn row(&self, at: u32) -> Option<u16>
        ensures { result ≡ row_at (source_of self.now) at }
    {
        match self.tokens.get(at as usize)?.class {
            Class::Punctuator(row) => Some(row),
            _ => None,
        }
    }

    /// The row of a keyword in the table of keywords (6.4.1).
    pub fn keyword(&self, at: u32) -> Option<u16>
        ensures { result ≡ keyword_at (source_of self.now) at }
    {
        match self.tokens.get(at as usize)?.class {
            Class::Keyword(row) => Some(row),
            _ => None,
        }
    }

    /// The refusal for a typing rule that is broken at a token.
    pub fn broken(&self, rule: u8, at: u32) -> Stop
        ensures { result ≡ Refused (refusal_at (source_of self.now) rule at) }
    {
        Stop::Refused(Refusal {
            number: TYPING,
            detail: rule,
            place: self.place(at),
        })
    }
}
