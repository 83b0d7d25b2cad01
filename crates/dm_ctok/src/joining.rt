//! Joining adjacent string literals (5.1.1.2p1, phase 6).

ghost use Rattle.std.specs.Prelude.{◌≡◌, [], ◌∷◌, ◌++◌, IfOk, OnOk, IfErr, None, Some, Ok, List as Sequence, ℕ};
ghost use Rattle.dm_spell.specs.Tables.{keyword_rows};
ghost use Rattle.dm_token.specs.declared.token.CToken.{CToken};
ghost use Rattle.dm_token.specs.Answer.{Gives, Stops};
ghost use Rattle.dm_ctok.specs.Joins.{joined};
ghost use Rattle.dm_ctok.specs.Pending.{as_token, as_list, Takes};
ghost use Rattle.dm_ctok.specs.Tokens.{token_of, literal_of};

use crate::escape::{Unread, append_elements, between_quotes};
use crate::token::{ctoken, is_prefixed, refusal};
use dm_spell::Spellings;
use dm_token::{CToken, Class, List, Memory, Place, PpKind, Stop, Text, Token, Trail, refusals};
use std::alloc::Global;

/// A string literal that the next one joins.
#[derive(Drop)]
pub struct Pending {
    /// Its bytes so far.
    pub bytes: Vec<u8>,
    /// That of its first part.
    pub place: Place,
    /// The common prefix of its parts' trails.
    pub trail: Trail,
}

impl Pending {
    /// The literal of one token.
    fn new(alloc: Global, token: &Token) -> Result<Pending, Stop>
        requires { token.now.pp.kind ≡ PpKind.Literal }
        ensures ok { IfOk result (λ pending. token_of token.now ≡ Ok (as_token pending)) }
        ensures err { IfErr result (λ stop. Stops stop (token_of token.now)) }
    {
        let mut bytes = Vec::new(alloc);
        append_literal(&mut bytes, token)?;
        Ok(Pending {
            bytes,
            place: token.pp.place,
            trail: token.trail.copy()?,
        })
    }

    /// This literal with the one of a token behind it.
    fn join(self, token: &Token) -> Result<Pending, Stop>
        requires { token.now.pp.kind ≡ PpKind.Literal }
        ensures ok { IfOk result (λ pending. (made : CToken) × (token_of token.now ≡ Ok made) × (as_token pending ≡ joined (as_token self) made)) }
        ensures err { IfErr result (λ stop. Stops stop (token_of token.now)) }
    {
        let Pending {
            mut bytes,
            place,
            trail,
        } = self;
        append_literal(&mut bytes, token)?;
        Ok(Pending {
            bytes,
            place,
            trail: trail.common(&token.trail).copy()?,
        })
    }

    fn close(self, alloc: Global) -> Result<CToken, Memory>
        ensures { IfOk result (λ made. made ≡ as_token self) }
    {
        let Pending {
            bytes,
            place,
            trail,
        } = self;
        Ok(CToken {
            class: Class::Literal,
            spelling: Text::from_vec(alloc, bytes)?,
            value: 0,
            kind: 0,
            place,
            trail,
        })
    }
}

// Appends the bytes of a token's literal.
#[tactic(auto, unfolding(crate::specs::Tokens::token_of, crate::specs::Tokens::of_kind, crate::specs::Tokens::literal))]
fn append_literal(bytes: &mut Vec<u8>, token: &Token) -> Result<(), Stop>
    requires { token.now.pp.kind ≡ PpKind.Literal }
    ensures ok { OnOk result ((values : Sequence ℕ) × (token_of token.now ≡ Ok (literal_of token.now values)) × (bytes.new.items ≡ bytes.old.items ++ values)) }
    ensures err { IfErr result (λ stop. Stops stop (token_of token.now)) }
{
    let spelling = token.pp.spelling.bytes();
    if is_prefixed(spelling) {
        return Err(refusal(token, refusals::OUT_OF_SUBSET));
    }
    match append_elements(bytes, between_quotes(spelling)) {
        Ok(()) => Ok(()),
        Err(Unread::Memory) => Err(Stop::Memory),
        Err(Unread::Escape) => Err(refusal(token, refusals::CONSTANT)),
    }
}

/// Tokens that are made one after another.
#[derive(Drop)]
pub struct Joiner {
    /// Those that nothing joins any more.
    pub done: List<CToken>,
    /// The literal behind them.
    pub pending: Option<Pending>,
}

impl Joiner {
    /// None yet, with room for so many.
    pub fn with_room(alloc: Global, count: usize) -> Result<Joiner, Memory>
        ensures done { IfOk result (λ joiner. joiner.done ≡ []) }
        ensures pending { IfOk result (λ joiner. joiner.pending ≡ None) }
    {
        let done = Vec::with_capacity(alloc, count)?;
        Ok(Joiner {
            done: List::from_vec(done),
            pending: None,
        })
    }

    /// Takes what the next token becomes.
    pub fn take(
        &mut self,
        alloc: Global,
        keywords: &Spellings<'static, 44>,
        token: &Token,
    ) -> Result<(), Stop>
        requires { keywords.now ≡ keyword_rows }
        ensures ok { OnOk result ((made : CToken) × (token_of token.now ≡ Ok made) × Takes self.old made self.new) }
        ensures err { IfErr result (λ stop. Stops stop (token_of token.now)) }
    {
        if token.pp.kind == PpKind::Literal {
            return self.take_literal(alloc, token);
        }
        let made = ctoken(keywords, token)?;
        self.close(alloc)?;
        self.done.push(made)?;
        Ok(())
    }

    // Takes a literal.
    fn take_literal(&mut self, alloc: Global, token: &Token) -> Result<(), Stop>
        requires { token.now.pp.kind ≡ PpKind.Literal }
        ensures ok { OnOk result ((made : CToken) × (token_of token.now ≡ Ok made) × Takes self.old made self.new) }
        ensures err { IfErr result (λ stop. Stops stop (token_of token.now)) }
    {
        let pending = match self.pending.take() {
            None => Pending::new(alloc, token)?,
            Some(pending) => pending.join(token)?,
        };
        self.pending = Some(pending);
        Ok(())
    }

    // Puts the unfinished literal behind the others.
    fn close(&mut self, alloc: Global) -> Result<(), Memory>
        ensures done { OnOk result (self.new.done ≡ self.old.done ++ as_list self.old.pending) }
        ensures pending { OnOk result (self.new.pending ≡ None) }
    {
        // Most tokens stand behind no literal, and then nothing is moved.
        if self.pending.is_none() {
            return Ok(());
        }
        if let Some(pending) = self.pending.take() {
            self.done.push(pending.close(alloc)?)?;
        }
        Ok(())
    }

    /// The tokens.
    pub fn finish(mut self, alloc: Global) -> Result<List<CToken>, Memory>
        ensures { IfOk result (λ tokens. tokens ≡ self.done ++ as_list self.pending) }
    {
        self.close(alloc)?;
        Ok(self.done)
    }
}
