use crate::expansion::{Definition, Expansion};
use crate::list::List;
use crate::place::Place;
use crate::text::Text;
use crate::token::Token;

/// A translation unit: a main file and the settings it is read with.
#[derive(Debug, PartialEq, Eq, Drop)]
pub struct Unit {
    /// The main file's name.
    pub file: Text,
    /// The include folders in the order in which they are searched.
    pub include: List<Text>,
    /// The defines, as `NAME` or `NAME=BODY`.
    pub define: List<Text>,
}

/// A definition that a unit reads.
#[derive(Debug, PartialEq, Eq, Drop)]
pub struct Read {
    pub definition: Definition,
    /// How many tokens were put out before it.
    pub before: u32,
}

/// A name that a directive uses.
#[derive(Debug, PartialEq, Eq, Drop)]
pub struct Use {
    pub name: Text,
    /// The position of its definition among those read, where it is defined then.
    pub definition: Option<u32>,
    pub place: Place,
}

/// A unit after translation phase 4.
#[derive(Debug, PartialEq, Eq, Drop)]
pub struct UnitTokens {
    pub tokens: List<Token>,
    /// The expansions outside directives.
    pub expansions: List<Expansion>,
    /// The definitions in the order of reading.
    pub read: List<Read>,
    /// The names in `#if`, `#ifdef`, `#ifndef` and `#elif`.
    pub directive_uses: List<Use>,
    /// The names in `#undef`.
    pub undefined: List<Use>,
    /// For each name in `undefined`, how many definitions were read before it.
    pub read_before_undefined: List<u32>,
    /// The numbers of the files read, in the order of first reading, built-in headers among them.
    pub files: List<u32>,
}
