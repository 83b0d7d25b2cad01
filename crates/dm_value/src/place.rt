//! Objects by their names, and places in them (6.2.4, 6.5p2).

ghost use Rattle.std.specs.Prelude.{◌≡◌, IfOk, map};
ghost use Rattle.dm_meaning.specs.Values as values;
ghost use Rattle.dm_meaning.specs.Operations.{part_of, whole};
ghost use Rattle.dm_value.specs.Places.{view_of_name, view_of_at};

use crate::path::{Path, along};
use dm_token::{Memory, Text};
use std::alloc::Global;

/// An object by its name.
#[derive(Drop)]
pub enum Name {
    /// One that a declaration or a call makes.
    Numbered(u64),
    /// A string literal: its bytes without the closing 0, and the number of its unit.
    Literal(Text, u32),
    /// One that the program declares and doesn't define, by its identifier.
    Elsewhere(Text),
}

/// An object, and a part of it.
#[derive(Drop)]
pub struct At {
    pub name: Name,
    pub path: Path,
}

impl Name {
    /// Whether it is the name of the same object.
    pub fn is_same(&self, other: &Name) -> bool
        ensures { result ≡ values.same_name (view_of_name self.now) (view_of_name other.now) }
    {
        match (self, other) {
            (Name::Numbered(number), Name::Numbered(another)) => number == another,
            (Name::Literal(bytes, unit), Name::Literal(others, another)) => {
                bytes.bytes() == others.bytes() && unit == another
            }
            (Name::Elsewhere(identifier), Name::Elsewhere(another)) => {
                identifier.bytes() == another.bytes()
            }
            _ => false,
        }
    }

    /// The same name. It fails only where a counter of owners is full.
    pub fn copy(&self) -> Result<Name, Memory>
        ensures { IfOk result (λ name. view_of_name name ≡ view_of_name self.now) }
    {
        match self {
            Name::Numbered(number) => Ok(Name::Numbered(*number)),
            Name::Literal(bytes, unit) => Ok(Name::Literal(bytes.copy()?, *unit)),
            Name::Elsewhere(identifier) => Ok(Name::Elsewhere(identifier.copy()?)),
        }
    }
}

impl At {
    /// A whole object.
    pub fn whole(name: Name) -> At
        ensures { view_of_at result ≡ whole (view_of_name name) }
    {
        At {
            name,
            path: Path::whole(),
        }
    }

    /// The same place. It fails only where a counter of owners is full.
    pub fn copy(&self) -> Result<At, Memory>
        ensures { IfOk result (λ at. view_of_at at ≡ view_of_at self.now) }
    {
        Ok(At {
            name: self.name.copy()?,
            path: self.path.copy()?,
        })
    }

    /// A part of it.
    pub fn part(&self, alloc: Global, number: u32) -> Result<At, Memory>
        ensures { IfOk result (λ at. view_of_at at ≡ part_of (view_of_at self.now) number) }
    {
        Ok(At {
            name: self.name.copy()?,
            path: self.path.inside(alloc, number)?,
        })
    }

    /// Whether one of two places is within the other.
    pub fn overlaps(&self, other: &At) -> bool
        ensures { result ≡ values.overlaps (view_of_at self.now) (view_of_at other.now) }
    {
        self.name.is_same(&other.name) && along(self.path.steps(), other.path.steps())
    }

    /// Whether it overlaps one of these.
    pub fn overlaps_any(&self, locks: &[At]) -> bool
        ensures { result ≡ values.overlaps_any (view_of_at self.now) (map view_of_at locks.now) }
    {
        let mut left = locks;
        while let Some((first, rest)) = left.split_first() {
            if self.overlaps(first) {
                return true;
            }
            left = rest;
        }
        false
    }
}
