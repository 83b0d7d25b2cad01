ghost use Rattle.std.specs.Prelude.{◌≡◌, ℕ, Bool, List, ◌++◌, drop, length, IsTrue, IfOk, OnOk, nat_eq};
ghost use Rattle.std.specs.List.{list_any};
ghost use Rattle.std.specs.Ordering.{nat_cmp};
ghost use Rattle.std.specs.FinSet as set;

use dm_token::Memory;
use std::alloc::Global;
use std::marker::Model;
use std::rc::Rc;

/// The macros that are hidden for a token (6.10.3.4p2). Contracts see the set of their definitions' numbers. Tokens share
/// their sets, so a copy takes no memory.
#[derive(Drop)]
pub struct Hidden {
    alloc: Global,
    numbers: Option<Rc<Vec<u32>>>,
}

impl Model for Hidden {
    ghost use Rattle.std.specs.Coded.{coded_ℕ};
    ghost use Rattle.std.specs.FinSet as set;
    ghost use Rattle.dm_expand.specs.HideSets.{HiddenNumbers};
    ghost use Rattle.dm_expand.specs.Hides.{numbers_of};

    ghost Value = { HiddenNumbers };

    ghost coded = { set.code coded_ℕ };

    ghost view = { λ hidden. set.from_list (numbers_of hidden.numbers) };
}

impl Hidden {
    /// The hide set of a token of the source. It takes no memory.
    pub fn nothing(alloc: Global) -> Hidden
        ensures { result ≡ set.empty }
    {
        Hidden {
            alloc,
            numbers: None,
        }
    }

    // The set of these numbers.
    fn of(alloc: Global, numbers: Vec<u32>) -> Result<Hidden, Memory>
        ensures { IfOk result (λ hidden. hidden ≡ set.from_list numbers.items) }
    {
        let shared = Rc::new(alloc, numbers)?;
        Ok(Hidden {
            alloc,
            numbers: Some(shared),
        })
    }

    // Its numbers, in the order in which they were put in.
    fn numbers(&self) -> &[u32]
        ensures { set.from_list {R = nat_cmp} result.now ≡ self.now }
    {
        match &self.numbers {
            None => &[],
            Some(shared) => shared.as_ref().as_slice(),
        }
    }

    /// How many numbers are put in.
    pub fn count(&self) -> usize {
        self.numbers().len()
    }

    // Whether it is sure that nothing is hidden.
    fn is_nothing(&self) -> bool
        ensures { IsTrue result → self.now ≡ set.empty }
    {
        self.numbers.is_none()
    }

    pub fn holds(&self, number: u32) -> bool
        ensures { result ≡ set.contains self.now number }
    {
        is_among(self.numbers(), number)
    }

    // Whether all of these numbers are hidden.
    fn hides_all(&self, numbers: &[u32]) -> bool
        ensures { IsTrue result → self.now ≡ set.union self.now (set.from_list numbers.now) }
    {
        for number in numbers {
            if !self.holds(*number) {
                return false;
            }
        }
        true
    }

    /// The set with one macro more.
    pub fn with(&self, number: u32) -> Result<Hidden, Memory>
        ensures { IfOk result (λ more. more ≡ set.insert self.now number) }
    {
        let mine = self.numbers();
        let mut all = copied(self.alloc, mine)?;
        all.push(number)?;
        let more = Hidden::of(self.alloc, all)?;
        Ok(more)
    }

    /// What one of the two sets hides.
    pub fn union(&self, other: &Hidden) -> Result<Hidden, Memory>
        ensures { IfOk result (λ either. either ≡ set.union self.now other.now) }
    {
        let mine = self.numbers();
        let theirs = other.numbers();
        if is_front(mine, theirs) {
            let longer = other.copy()?;
            return Ok(longer);
        }
        if self.hides_all(theirs) {
            let longer = self.copy()?;
            return Ok(longer);
        }
        let mut all = copied(self.alloc, mine)?;
        for number in theirs {
            add_to(&mut all, *number)?;
        }
        let either = Hidden::of(self.alloc, all)?;
        Ok(either)
    }

    /// What both sets hide.
    pub fn meet(&self, other: &Hidden) -> Result<Hidden, Memory>
        ensures { IfOk result (λ both. both ≡ set.intersection self.now other.now) }
    {
        let mine = self.numbers();
        let theirs = other.numbers();
        if is_front(mine, theirs) {
            let shorter = self.copy()?;
            return Ok(shorter);
        }
        let mut kept = Vec::new(self.alloc);
        for number in mine {
            if other.holds(*number) {
                kept.push(*number)?;
            }
        }
        let both = Hidden::of(self.alloc, kept)?;
        Ok(both)
    }

    /// The same set, which is shared.
    pub fn copy(&self) -> Result<Hidden, Memory>
        ensures { IfOk result (λ same. same ≡ self.now) }
    {
        let numbers = match &self.numbers {
            None => None,
            Some(shared) => Some(shared.clone()?),
        };
        Ok(Hidden {
            alloc: self.alloc,
            numbers,
        })
    }
}

/// A hide set that is added to those of a replacement's tokens. Contracts see the set. Neighbours mostly hide the same, so
/// the last set that it was added to is kept with what became of it.
#[derive(Drop)]
pub struct Hiding {
    hidden: Hidden,
    last: Hidden,
    became: Hidden,
}

impl Model for Hiding {
    ghost use Rattle.std.specs.Prelude.{◌≡◌};
    ghost use Rattle.std.specs.Coded.{coded_ℕ};
    ghost use Rattle.std.specs.FinSet as set;
    ghost use Rattle.dm_expand.specs.HideSets.{HiddenNumbers};

    ghost Value = { HiddenNumbers };

    ghost coded = { set.code coded_ℕ };

    ghost view = { λ hiding. hiding.hidden };

    ghost invariant = { λ hiding. hiding.became ≡ set.union hiding.last hiding.hidden };
}

impl Hiding {
    pub fn new(alloc: Global, hidden: &Hidden) -> Result<Hiding, Memory>
        ensures { IfOk result (λ hiding. hiding ≡ hidden.now) }
    {
        let mine = hidden.copy()?;
        let became = hidden.copy()?;
        Ok(Hiding {
            hidden: mine,
            last: Hidden::nothing(alloc),
            became,
        })
    }

    /// What a token hides, and this set.
    pub fn besides(&mut self, other: &Hidden) -> Result<Hidden, Memory>
        ensures besides { IfOk result (λ both. both ≡ set.union other.now self.old) }
        ensures same { self.new ≡ self.old }
    {
        if other.is_nothing() {
            let mine = self.hidden.copy()?;
            return Ok(mine);
        }
        if are_same(&self.last, other) {
            return self.became.copy();
        }
        let became = other.union(&self.hidden)?;
        let last = other.copy()?;
        let both = became.copy()?;
        self.last = last;
        self.became = became;
        Ok(both)
    }
}

/// Whether it is sure that two sets are the same.
pub fn are_same(left: &Hidden, right: &Hidden) -> bool
    ensures { IsTrue result → left.now ≡ right.now }
{
    let mine = left.numbers();
    let theirs = right.numbers();
    mine.len() == theirs.len() && is_front(mine, theirs)
}

// Numbers, with room for one more.
fn copied(alloc: Global, numbers: &[u32]) -> Result<Vec<u32>, Memory>
    ensures { IfOk result (λ copy. copy.items ≡ numbers.now) }
{
    let mut copy = Vec::with_capacity(alloc, numbers.len() + 1)?;
    copy.extend_from_slice(numbers)?;
    Ok(copy)
}

// Adds a number to a list, unless it is there.
fn add_to(numbers: &mut Vec<u32>, number: u32) -> Result<(), Memory>
    ensures { OnOk result (set.from_list {R = nat_cmp} numbers.new.items ≡ set.insert (set.from_list numbers.old.items) number) }
{
    if !is_among(numbers.as_slice(), number) {
        numbers.push(number)?;
    }
    Ok(())
}

// Whether a number is in a list. No number ends the look, so several are compared at once.
fn is_among(numbers: &[u32], number: u32) -> bool
    ensures { result ≡ list_any (λ other. nat_eq other number) numbers.now }
{
    let mut found = false;
    for other in numbers {
        found |= *other == number;
    }
    found
}

// Whether a list begins with another. No number ends the look, so several are compared at once.
fn is_front(front: &[u32], numbers: &[u32]) -> bool
    ensures { IsTrue result → numbers.now ≡ front.now ++ drop (length front.now) numbers.now }
{
    if numbers.len() < front.len() {
        return false;
    }
    let mut same = true;
    for (index, number) in front.iter().enumerate() {
        same &= *number == numbers[index];
    }
    same
}
