use crate::tree::{Core, Local};
use dm_token::{List, Place, Span, Text};
use dm_type::TypeId;

/// A translation unit (6.9): what its declarations declare, and the external declarations in order.
#[derive(Drop)]
pub struct CoreUnit {
    /// The type `char *[1]`: that of the object to which `argv` points at the beginning of a run (5.1.2.2.1p2).
    pub argv: TypeId,
    /// Redeclarations of one entity with linkage share one entry, whose place is that of the first.
    pub declared: List<Declared>,
    pub externals: List<CoreExternal>,
}

/// What a declaration declares.
#[derive(Drop)]
pub struct Declared {
    pub name: Text,
    pub sort: Sort,
    pub kind: TypeId,
    pub linkage: Linkage,
    pub place: Place,
}

/// What a name stands for (6.2.1).
#[derive(Clone, Copy, Debug, PartialEq, Eq)]
pub enum Sort {
    Object {
        /// Whether it has static storage duration (6.2.4p3).
        fixed: bool,
    },
    Function,
    Typedef,
    /// The value of the enumerator (6.7.2.2).
    Enumerator(i128),
    Tag,
}

/// Which declarations of a name mean the same entity (6.2.2).
#[derive(Clone, Copy, Debug, PartialEq, Eq)]
pub enum Linkage {
    External,
    Internal,
    Absent,
}

/// An external declaration.
#[derive(Drop)]
pub struct CoreExternal {
    pub span: Span,
    /// The array lengths and enumerator values in it, outside the body of a function.
    pub constants: List<Core>,
    pub form: CoreExternalForm,
}

/// The form of an external declaration.
#[derive(Drop)]
pub enum CoreExternalForm {
    Declaration(List<Local>),
    /// A function definition. Numbers are positions of declarations.
    Function {
        function: u32,
        parameters: List<u32>,
        body: Core,
    },
}
