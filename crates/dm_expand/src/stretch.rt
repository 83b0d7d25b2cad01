ghost use Rattle.std.specs.Prelude.{◌≡◌, ◌≤◌, ◌<◌, ◌-◌, ◌+◌, [], ◌∷◌, take, drop, length, IfOk, MatchOption, option_map};
ghost use Rattle.dm_parentheses.specs.Parentheses.{before_closing as signs_before_closing};
ghost use Rattle.dm_expand.specs.Arguments as arguments;
ghost use Rattle.dm_expand.specs.Shares.{AreSigns, sign_of as sign_value, signs_of as sign_values};
ghost use Rattle.dm_expand.specs.Trails as trails;
ghost use Rattle.dm_expand.specs.Views.{enclosed_value};

use crate::arguments::{Enclosed, count_before_closing, count_before_comma, separates};
use crate::item::{Item, copied};
use crate::trails::come_otherwise;
use dm_macro::{is_comma, is_left_parenthesis, is_right_parenthesis};
use dm_parentheses::{Ends, Sign};
use dm_token::{Memory, Trail};
use std::alloc::Global;
use std::marker::Model;
use std::rc::Rc;

/// From how many tokens on a list has a table of where arguments end in it.
const MANY: usize = 64;

/// How many tokens a list may have more than a quarter of its room when the room is given back.
const SPARE: usize = 8;

/// Tokens that lists share. Where they are many, it is known for each where the arguments behind it end.
#[derive(Drop)]
pub struct Shared {
    items: Vec<Item>,
    ends: Option<Ends>,
}

/// A list of tokens that is part of a list, or of several, and shares the tokens with it, so that an argument takes no
/// memory of its own however many tokens it has. Contracts see the tokens.
#[derive(Drop)]
pub struct Stretch {
    alloc: Global,
    shared: Rc<Shared>,
    /// The indexes of its first token, and of what stands behind its last one.
    first: usize,
    after: usize,
    /// A trail with which those of all its tokens begin, so that these needn't be looked at again.
    came: Trail,
}

impl Model for Stretch {
    ghost use Rattle.std.specs.Prelude.{List};
    ghost use Rattle.std.specs.Coded.{codes, coded_list, coded_ℕ};
    ghost use Rattle.std.specs.FinSet as set;
    ghost use Rattle.std.specs.Ordering.{nat_cmp};
    ghost use Rattle.dm_expand.specs.Items as items;
    ghost use Rattle.dm_expand.specs.Shares.{stretch_of, IsStretch};

    ghost Value = { List items.Item };

    ghost coded = { Prim.hlevel (codes, coded_list, set.code {R = nat_cmp} coded_ℕ) };

    ghost view = { λ stretch. stretch_of stretch.shared.value.items.items stretch.first stretch.after };

    ghost invariant = { λ stretch. IsStretch stretch.shared.value.items.items stretch.shared.value.ends stretch.first stretch.after stretch.came };
}

/// Whether so much room is more than so many tokens are to have.
pub fn is_spare(room: usize, count: usize) -> bool {
    room / 4 > count.saturating_add(SPARE)
}

// What a token is to the arguments of an invocation.
#[tactic(auto, unfolding(crate::specs::Shares::sign_of, crate::specs::Arguments::opens, crate::specs::Arguments::closes, crate::specs::Arguments::separates))]
fn sign_of(item: &Item) -> Sign
    ensures { result ≡ sign_value item.now }
{
    if is_left_parenthesis(&item.pp) {
        Sign::Opening
    } else if is_right_parenthesis(&item.pp) {
        Sign::Closing
    } else if is_comma(&item.pp) {
        Sign::Comma
    } else {
        Sign::Other
    }
}

// The same of each token.
fn signs_of(alloc: Global, items: &[Item]) -> Result<Vec<Sign>, Memory>
    ensures { IfOk result (λ signs. signs.items ≡ sign_values items.now) }
{
    let mut signs = Vec::with_capacity(alloc, items.len())?;
    for item in items {
        signs.push(sign_of(item))?;
    }
    Ok(signs)
}

// Where arguments end among many tokens.
fn ends_of(alloc: Global, items: &[Item]) -> Result<Option<Ends>, Memory>
    ensures { IfOk result (λ ends. AreSigns items.now ends) }
{
    if items.len() < MANY {
        return Ok(None);
    }
    let signs = signs_of(alloc, items)?;
    let ends = Ends::of(alloc, signs)?;
    Ok(Some(ends))
}

impl Stretch {
    /// A list of its own.
    pub fn of(alloc: Global, items: Vec<Item>) -> Result<Stretch, Memory>
        ensures { IfOk result (λ stretch. stretch ≡ items.items) }
    {
        let after = items.len();
        let ends = ends_of(alloc, items.as_slice())?;
        let shared = Rc::new(alloc, Shared { items, ends })?;
        Ok(Stretch {
            alloc,
            shared,
            first: 0,
            after,
            came: Trail::empty(alloc),
        })
    }

    pub fn items(&self) -> &[Item]
        ensures { result.now ≡ self.now }
    {
        &self.shared.as_ref().items[self.first..self.after]
    }

    pub fn len(&self) -> usize
        ensures { result ≡ length self.now }
    {
        self.after - self.first
    }

    /// The first tokens, so many of them.
    pub fn front(&self, count: usize) -> Result<Stretch, Memory>
        requires { count ≤ length self.now }
        ensures { IfOk result (λ front. front ≡ take count self.now) }
    {
        Ok(Stretch {
            alloc: self.alloc,
            shared: self.shared.clone()?,
            first: self.first,
            after: self.first + count,
            came: self.came.copy()?,
        })
    }

    /// The same tokens.
    pub fn copy(&self) -> Result<Stretch, Memory>
        ensures { IfOk result (λ stretch. stretch ≡ self.now) }
    {
        self.front(self.len())
    }

    /// Lets go of the first tokens, so many of them.
    pub fn skip(&mut self, count: usize)
        requires { count ≤ length self.old }
        ensures { self.new ≡ drop count self.old }
    {
        self.first += count;
    }

    /// Lets go of the shared tokens, with a copy of those that are left here, where these are few.
    pub fn let_go(&mut self) -> Result<(), Memory>
        ensures { self.new ≡ self.old }
    {
        if is_spare(self.shared.as_ref().items.len(), self.len()) {
            let left = copied(self.alloc, self.items())?;
            *self = Stretch::of(self.alloc, left)?;
        }
        Ok(())
    }

    /// The first token, which leaves the list.
    pub fn next(&mut self) -> Result<Option<Item>, Memory>
        ensures next { IfOk result (λ next. MatchOption next ((self.old ≡ []) × (self.new ≡ [])) (λ item. self.old ≡ item ∷ self.new)) }
        ensures shorter { length self.new ≤ length self.old }
    {
        let Some(item) = self.items().first() else {
            return Ok(None);
        };
        let item = item.copy()?;
        self.skip(1);
        Ok(Some(item))
    }

    // How many tokens stand before the `)` that closes what a `(` before them opened.
    fn before_closing(&self) -> Option<usize>
        ensures { result ≡ signs_before_closing 0 (sign_values self.now) }
    {
        let Some(ends) = &self.shared.as_ref().ends else {
            return count_before_closing(self.items());
        };
        let Some(closing) = ends.closing(self.first) else {
            return None;
        };
        if closing < self.after {
            Some(closing - self.first)
        } else {
            None
        }
    }

    /// Takes what stands behind a `(`, through its closing `)`. There is none where the list ends first.
    pub fn take_enclosed(&mut self) -> Result<Option<Enclosed>, Memory>
        ensures found { IfOk result (λ found. arguments.enclosed_in 0 self.old ≡ option_map (enclosed_value self.new) found) }
        ensures shorter { length self.new ≤ length self.old }
    {
        let Some(count) = self.before_closing() else {
            return Ok(None);
        };
        let inside = self.front(count)?;
        self.skip(count);
        let Some(closing) = self.next()? else {
            return Ok(None);
        };
        Ok(Some(Enclosed { inside, closing }))
    }

    /// How many tokens stand before the comma that ends the first argument, where there may be so many commas. There is none
    /// where all are one argument.
    pub fn before_comma(&self, left: usize) -> Option<usize>
        ensures { MatchOption result (arguments.separated left 0 self.now ≡ self.now ∷ []) (λ count. (count < length self.now)
            × (arguments.separated left 0 self.now ≡ take count self.now ∷ arguments.separated (left - 1) 0 (drop (count + 1) self.now))) }
    {
        let items = self.items();
        if left == 0 {
            return None;
        }
        let Some(ends) = &self.shared.as_ref().ends else {
            return count_before_comma(left, items);
        };
        let Some(end) = ends.end(self.first) else {
            return None;
        };
        if self.after <= end {
            return None;
        }
        let count = end - self.first;
        if separates(&items[count]) {
            return Some(count);
        }
        // A `)` that nothing opens.
        count_before_comma(left, items)
    }

    /// Whether some token didn't come by this way.
    pub fn comes_otherwise(&mut self, way: &Trail) -> Result<bool, Memory>
        ensures otherwise { IfOk result (λ otherwise. otherwise ≡ trails.come_otherwise way.now self.old) }
        ensures same { self.new ≡ self.old }
    {
        if way.begins(&self.came) {
            return Ok(false);
        }
        let otherwise = come_otherwise(self.alloc, way, self.items())?;
        if !otherwise {
            self.came = way.copy()?;
        }
        Ok(otherwise)
    }
}
