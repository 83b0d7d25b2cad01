ghost use Rattle.std.specs.Prelude.{◌≡◌, IfOk, [], ◌∷◌, ◌++◌, List};
ghost use Rattle.dm_expand.specs.Expansion.{token_of as put_out};
ghost use Rattle.dm_expand.specs.Items.{of_source as source_item, with_blank as blank_item};

use crate::hidden::Hidden;
use dm_route::{Joining, Route};
use dm_token::{Memory, PpToken, Token, Trail};
use std::alloc::Global;
use std::marker::Model;

/// A token of a list that is expanded, with the macros that are hidden for it and the way that it came. Contracts see
/// the three.
#[derive(Drop)]
pub struct Item {
    pub pp: PpToken,
    pub hidden: Hidden,
    pub trail: Route,
}

impl Model for Item {
    ghost use Rattle.dm_expand.specs.Items as items;
    ghost use Rattle.std.specs.Coded.{codes, coded_ℕ};
    ghost use Rattle.std.specs.FinSet as set;
    ghost use Rattle.std.specs.Ordering.{nat_cmp};

    ghost Value = { items.Item };

    ghost coded = { Prim.hlevel (codes, set.code {R = nat_cmp} coded_ℕ) };

    ghost view = { λ item. record { pp = item.pp; hidden = item.hidden; trail = item.trail } };
}

impl Item {
    /// A token of the source.
    #[tactic(auto, unfolding(crate::specs::Items::of_source))]
    pub fn of_source(alloc: Global, token: &PpToken) -> Result<Item, Memory>
        ensures { IfOk result (λ item. item ≡ source_item token.now) }
    {
        Ok(Item {
            pp: token.copy()?,
            hidden: Hidden::nothing(alloc),
            trail: Route::of(Trail::empty(alloc)),
        })
    }

    /// The same token.
    pub fn copy(&self) -> Result<Item, Memory>
        ensures { IfOk result (λ item. item ≡ self.now) }
    {
        Ok(Item {
            pp: self.pp.copy()?,
            hidden: self.hidden.copy()?,
            trail: self.trail.copy()?,
        })
    }

    /// The token as it is put out, without its hide set.
    #[tactic(auto, unfolding(crate::specs::Expansion::token_of))]
    pub fn into_token(self, joining: &mut Joining) -> Result<Token, Memory>
        ensures { IfOk result (λ token. token ≡ put_out self) }
    {
        let Item {
            pp,
            hidden: _,
            trail,
        } = self;
        let trail = joining.join(&trail)?;
        Ok(Token { pp, trail })
    }

    /// The token with a blank before it, or with none.
    #[tactic(auto, unfolding(crate::specs::Items::with_blank))]
    pub fn set_blank(&mut self, blank: bool)
        ensures { self.new ≡ blank_item blank self.old }
    {
        self.pp.blank_before = blank;
    }
}

/// Copies of tokens.
pub fn copied(alloc: Global, items: &[Item]) -> Result<Vec<Item>, Memory>
    ensures { IfOk result (λ copies. copies.items ≡ items.now) }
{
    let mut copies = Vec::with_capacity(alloc, items.len())?;
    for item in items {
        copies.push(item.copy()?)?;
    }
    Ok(copies)
}
