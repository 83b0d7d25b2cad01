//! The members of a struct, found by their names.

ghost use Rattle.std.specs.Prelude.{◌≡◌, ◌++◌, ◌∷◌, [], IsTrue, ◌↔◌, Ok, Some, true, false, not, is_some, option_map, slice_get, IfOk, IfSome, OnErr};
ghost use Rattle.dm_type.specs.Naming.{member_named};

use crate::shape::Member;
use dm_token::{Memory, Text};
use indexmap::IndexSet;
use std::alloc::Global;
use std::marker::Model;

/// Members of a struct in their order, no two of one name (6.7.2.1, 6.2.3). Contracts see their list. A look-up of a name
/// walks no members.
#[derive(Drop)]
pub struct Members {
    in_order: Vec<Member>,
    names: IndexSet<Text>,
}

impl Model for Members {
    ghost use Rattle.std.specs.Prelude.{◌≡◌, ◌<◌, ◌^◌, List, length, map};
    ghost use Rattle.dm_type.specs.declared.shape.Member.{Member as OneMember};

    ghost Value = { List OneMember };

    ghost view = { λ members. members.in_order.items };

    ghost invariant = { λ members. (map (λ (member : OneMember). member.name) members.in_order.items ≡ members.names.keys) × (length members.in_order.items < 2 ^ 32) };
}

/// The greatest number of members.
const MOST_MEMBERS: usize = u32::MAX as usize;

impl Members {
    /// No member. It takes no memory.
    pub fn new(alloc: Global) -> Members
        ensures { result ≡ [] }
    {
        Members {
            in_order: Vec::new(alloc),
            names: IndexSet::new(alloc),
        }
    }

    pub fn items(&self) -> &[Member]
        ensures { result.now ≡ self.now }
    {
        self.in_order.as_slice()
    }

    pub fn is_empty(&self) -> bool
        ensures { IsTrue result ↔ (self.now ≡ []) }
    {
        self.in_order.is_empty()
    }

    /// One member more, behind the others. False where one of them has its name, and then nothing is changed, as after an
    /// `Err`. More than 4,294,967,295 members count as want of memory.
    pub fn push(&mut self, member: Member) -> Result<bool, Memory>
        ensures new { IfOk result (λ new. new ≡ not (is_some (member_named member.name 0 self.old))) }
        ensures pushed { result ≡ Ok true → self.new ≡ self.old ++ member ∷ [] }
        ensures twice { result ≡ Ok false → self.new ≡ self.old }
        ensures err { OnErr result (self.new ≡ self.old) }
    {
        if self.in_order.len() >= MOST_MEMBERS {
            return Err(Memory);
        }
        let name = member.name.copy()?;
        self.in_order.reserve(1)?;
        let added = self.names.insert(name)?;
        if !added {
            return Ok(false);
        }
        self.in_order.push_reserved(member);
        Ok(true)
    }

    /// The member of a name, and its number, from 0 on.
    pub fn find(&self, name: &Text) -> Option<(u32, &Member)>
        ensures found { option_map (λ found. (found.0, found.1.now)) result ≡ member_named name.now 0 self.now }
        ensures there { IfSome result (λ found. slice_get self.now found.0 ≡ Some found.1.now) }
    {
        let number = self.names.get_index_of(name)?;
        Some((number as u32, &self.in_order[number]))
    }
}
