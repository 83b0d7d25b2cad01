use crate::list::List;
use crate::place::Place;
use crate::text::Text;
use crate::token::PpToken;
use crate::trail::Trail;

/// One step on a token's way from its spelling to the list of a unit.
#[derive(Clone, Copy, Debug, PartialEq, Eq)]
pub enum Mark {
    /// It came out of a macro's replacement (6.10.3).
    Expansion {
        /// The position of the macro's definition among those read.
        definition: u32,
        /// The number of this expansion in its unit, in the order in which expansions are made.
        instance: u32,
    },
    /// It stood in an argument (6.10.3.1).
    Argument {
        /// The parameter's position.
        parameter: u32,
        /// Which of the parameter's places in the replacement list, counted from 0.
        occurrence: u32,
    },
}

/// Where a macro's definition stands.
#[derive(Clone, Copy, Debug, PartialEq, Eq)]
pub enum Origin {
    /// In a file of the folder.
    File,
    /// In a built-in header.
    Header,
    /// Among the manifest's defines.
    Manifest,
}

/// A macro definition (6.10.3).
#[derive(Debug, PartialEq, Eq, Drop)]
pub struct Definition {
    pub name: Text,
    /// The parameters' names, or `None` for an object-like macro. `__VA_ARGS__` isn't among them.
    pub parameters: Option<List<Text>>,
    /// Whether the parameter list ends in `...`.
    pub variadic: bool,
    /// The replacement list.
    pub body: List<PpToken>,
    pub origin: Origin,
    /// That of the name.
    pub place: Place,
    /// The byte of the directive's `#`.
    pub hash: u32,
    /// The offset after the name, or after the `)` of the parameter list.
    pub head_end: u32,
    /// Whether neither a splice nor a comment nor a newline stands between `#` and `head_end`.
    pub head_plain: bool,
}

/// One expansion of a macro in a unit.
#[derive(Debug, PartialEq, Eq, Drop)]
pub struct Expansion {
    /// The position of the macro's definition among those read.
    pub definition: u32,
    /// The number of this expansion in its unit.
    pub instance: u32,
    /// The place of the macro's name.
    pub name: Place,
    /// The trail of the macro's name.
    pub trail: Trail,
    /// Whether a token that carries its mark stood in an argument that `#` or `##` used.
    pub taken: bool,
    /// Whether some token from its `(` to its `)` came by another way than its name.
    pub foreign: bool,
}
