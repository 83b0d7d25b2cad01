ghost use Rattle.std.specs.Prelude.{◌≡◌, ◌-◌, ◌<◌, ◌≤◌, ◌^◌, List as Sequence, [], ◌∷◌, ◌++◌, length, IfOk, IsTrue, ◌↔◌, MatchOption};
ghost use Rattle.dm_token.specs.declared.expansion.Mark.{Mark};
ghost use Rattle.dm_token.specs.Prefixes.{IsPrefix, IsLongestCommonPrefix};

use crate::expansion::Mark;
use crate::list::List;
use crate::stop::Memory;
use std::alloc::Global;
use std::fmt;
use std::marker::Model;
use std::rc::Rc;

/// The marks of a token, outermost first. Contracts see it as the list of marks. Trails that begin with the same marks
/// may share them, so a copy takes no memory, and a trail that is one mark longer takes the memory of one mark.
#[cycle(trail)]
pub struct Trail {
    alloc: Global,
    top: Option<Rc<Node>>,
}

/// The innermost mark, and the trail of those outside of it.
#[cycle(trail)]
#[derive(Drop)]
struct Node {
    mark: Mark,
    parent: Trail,
    /// How many marks there are, this one among them.
    length: u32,
}

impl Model for Trail {
    ghost use Rattle.std.specs.Prelude.{List, length};
    ghost use Rattle.dm_token.specs.declared.expansion.Mark.{Mark};

    ghost Value = { List Mark };

    ghost use Rattle.dm_token.specs.Trails.{marks_of, IsCounted};

    ghost view = { λ trail. marks_of trail.top };

    ghost invariant = { λ trail. IsCounted trail.top };

    ghost size = { length };

    ghost use Rattle.dm_token.specs.TrailFalls.{parent_is_shorter};

    ghost size_decreases = { λ trail _. parent_is_shorter trail.alloc trail.top };
}

impl Trail {
    /// The trail without marks. It takes no memory.
    pub fn empty(alloc: Global) -> Trail
        ensures { result ≡ [] }
    {
        Trail { alloc, top: None }
    }

    /// This trail with one more mark inside of the others.
    pub fn grow(&self, mark: Mark) -> Result<Trail, Memory>
        requires { length self.now < 2 ^ 32 - 1 }
        ensures { IfOk result (λ longer. longer ≡ self.now ++ mark ∷ []) }
    {
        let node = Node {
            mark,
            parent: self.copy()?,
            length: self.length() + 1,
        };
        let top = Rc::new(self.alloc, node)?;
        Ok(Trail {
            alloc: self.alloc,
            top: Some(top),
        })
    }

    /// The same marks, which are shared. It fails only where a counter of owners is full.
    pub fn copy(&self) -> Result<Trail, Memory>
        ensures { IfOk result (λ trail. trail ≡ self.now) }
    {
        let top = match &self.top {
            None => None,
            Some(node) => Some(node.clone()?),
        };
        Ok(Trail {
            alloc: self.alloc,
            top,
        })
    }

    /// How many marks there are.
    pub fn length(&self) -> u32
        ensures { result ≡ length self.now }
    {
        match &self.top {
            None => 0,
            Some(node) => node.as_ref().length,
        }
    }

    /// The innermost mark.
    pub fn last(&self) -> Option<Mark>
        ensures { MatchOption result (self.now ≡ []) (λ mark. (outer : Sequence Mark) × (self.now ≡ outer ++ mark ∷ [])) }
    {
        match self.node() {
            None => None,
            Some(node) => Some(node.mark),
        }
    }

    /// The trail without its innermost mark.
    pub fn parent(&self) -> Option<&Trail>
        ensures { MatchOption result (self.now ≡ []) (λ outer. (mark : Mark) × (self.now ≡ outer.now ++ mark ∷ [])) }
    {
        match self.node() {
            None => None,
            Some(node) => Some(&node.parent),
        }
    }

    fn node(&self) -> Option<&Node>
        ensures { MatchOption result (self.now ≡ []) (λ node. self.now ≡ node.now.parent ++ node.now.mark ∷ []) }
    {
        match &self.top {
            None => None,
            Some(node) => Some(node.as_ref()),
        }
    }

    /// Whether the other trail begins with this one's marks.
    pub fn begins(&self, other: &Trail) -> bool
        ensures { IsTrue result ↔ IsPrefix self.now other.now }
    {
        self.length() <= other.length() && *self == *other.first(self.length())
    }

    /// The marks with which both trails begin, as part of this one.
    pub fn common<'a>(&'a self, other: &Trail) -> &'a Trail
        ensures { IsLongestCommonPrefix self.now other.now result.now }
    {
        let shorter = self.length().min(other.length());
        let mut left = self.first(shorter);
        let mut right = other.first(shorter);
        let mut common = left;
        while let (Some(mine), Some(theirs)) = (left.node(), right.node()) {
            if mine.mark != theirs.mark {
                common = &mine.parent;
            }
            left = &mine.parent;
            right = &theirs.parent;
        }
        common
    }

    /// The marks as a list.
    pub fn marks(&self) -> Result<List<Mark>, Memory>
        ensures { IfOk result (λ marks. marks ≡ self.now) }
    {
        let mut marks = Vec::new(self.alloc);
        let mut trail = self;
        while let Some(node) = trail.node() {
            marks.push(node.mark)?;
            trail = &node.parent;
        }
        marks.reverse();
        Ok(List::from_vec(marks))
    }

    /// The outermost marks, of which there are this many.
    fn first(&self, count: u32) -> &Trail
        requires { count ≤ length self.now }
        ensures begins { IsPrefix result.now self.now }
        ensures counted { length result.now ≡ count }
    {
        let mut trail = self;
        while let Some(node) = trail.node() {
            if trail.length() == count {
                return trail;
            }
            trail = &node.parent;
        }
        trail
    }
}

impl Node {
    /// The trail without the mark.
    fn into_parent(self) -> Trail
        ensures { result ≡ self.parent }
    {
        let Node {
            mark: _,
            parent,
            length: _,
        } = self;
        parent
    }
}

/// In a loop, so that a long chain takes no more of the stack than a short one.
impl Drop for Trail {
    fn drop(mut self) {
        loop {
            let Trail { alloc: _, top } = self;
            let Some(top) = top else {
                return;
            };
            match Rc::into_inner(top) {
                None => return,
                Some(node) => self = node.into_parent(),
            }
        }
    }
}

/// The marks, innermost first, since that is how a chain can be followed without recursion.
impl fmt::Debug for Trail {
    fn fmt<W: fmt::Write>(&self, f: &mut fmt::Formatter<W>) -> fmt::Result {
        let mut trail = self;
        f.write_str("[")?;
        while let Some(node) = trail.node() {
            write!(f, "{:?}, ", node.mark)?;
            trail = &node.parent;
        }
        f.write_str("]")
    }
}

impl PartialEq for Trail {
    ghost use Rattle.std.specs.Cmp.Lexicographic.{lists_per};
    ghost use Rattle.dm_token.specs.contracts.expansion.MarkPartialEq.TheImpl.Laws.{laws-law};
    ghost use Rattle.dm_token.specs.Equal.{equal};

    ghost eq = { equal };

    ghost laws = { lists_per laws-law };

    fn eq(&self, other: &Trail) -> bool {
        if self.length() != other.length() {
            return false;
        }
        let mut left = self;
        let mut right = other;
        while let (Some(mine), Some(theirs)) = (left.node(), right.node()) {
            if mine.mark != theirs.mark {
                return false;
            }
            left = &mine.parent;
            right = &theirs.parent;
        }
        true
    }
}

impl Eq for Trail {
    ghost use Rattle.std.specs.Cmp.Lexicographic.{lists_equiv};
    ghost use Rattle.dm_token.specs.contracts.expansion.MarkEq.TheImpl.Laws.{laws-law};

    ghost laws = { lists_equiv laws-law };
}
