//! Specifiers, declarators, type names, declarations and initialisers (6.7).

use crate::expression::Expr;
use dm_token::{Boxed, List, Span};

/// Declaration specifiers, or the specifiers and qualifiers of a member or a type name (6.7, 6.7.2.1, 6.7.7).
#[cycle(expressions)]
#[derive(Debug, Drop)]
pub struct Specifiers {
    pub span: Span,
    pub words: List<Specifier>,
}

/// One specifier or qualifier (6.7.1 to 6.7.4).
#[cycle(expressions)]
#[derive(Debug, Drop)]
pub enum Specifier {
    /// A keyword.
    Word(u32),
    /// A typedef name (6.7.8).
    Typedef(u32),
    Struct(StructForm),
    Enum(EnumForm),
}

/// `struct` with a tag, members or both (6.7.2.1).
#[cycle(expressions)]
#[derive(Debug, Drop)]
pub struct StructForm {
    pub span: Span,
    pub tag: Option<u32>,
    pub members: Option<List<MemberForm>>,
}

/// A declaration of members (6.7.2.1).
#[cycle(expressions)]
#[derive(Debug, Drop)]
pub struct MemberForm {
    pub span: Span,
    pub specifiers: Specifiers,
    pub declarators: List<Declarator>,
}

/// `enum` with a tag, enumerators or both (6.7.2.2).
#[cycle(expressions)]
#[derive(Debug, Drop)]
pub struct EnumForm {
    pub span: Span,
    pub tag: Option<u32>,
    pub enumerators: Option<List<EnumItem>>,
    /// Whether a comma stands before the closing brace.
    pub trailing: bool,
}

/// An enumerator and its value (6.7.2.2).
#[cycle(expressions)]
#[derive(Debug, Drop)]
pub struct EnumItem {
    pub span: Span,
    pub name: u32,
    pub value: Option<Expr>,
}

/// A declarator or an abstract declarator, which may be empty (6.7.6, 6.7.7).
#[cycle(expressions)]
#[derive(Debug, Drop)]
pub struct Declarator {
    pub span: Span,
    /// For each `*`, the number of `const` behind it (6.7.6.1).
    pub pointers: List<u32>,
    pub direct: Direct,
}

/// What stands behind the pointers (6.7.6).
#[cycle(expressions)]
#[derive(Debug, Drop)]
pub enum Direct {
    /// Nothing, in an abstract declarator.
    Absent,
    /// The declared identifier.
    Name(u32),
    Paren(Boxed<Declarator>),
    /// An array, and its length if it has one (6.7.6.2).
    Array(Boxed<Direct>, Option<Boxed<Expr>>),
    /// A function and its parameters (6.7.6.3). `(void)` is one parameter.
    Function(Boxed<Direct>, List<Parameter>),
}

/// The declaration of a parameter (6.7.6.3).
#[cycle(expressions)]
#[derive(Debug, Drop)]
pub struct Parameter {
    pub span: Span,
    pub specifiers: Specifiers,
    pub declarator: Declarator,
}

/// A type name (6.7.7).
#[cycle(expressions)]
#[derive(Debug, Drop)]
pub struct TypeName {
    pub span: Span,
    pub specifiers: Specifiers,
    pub declarator: Declarator,
}

/// A declaration (6.7).
#[derive(Debug, Drop)]
pub struct Declaration {
    pub span: Span,
    pub specifiers: Specifiers,
    pub items: List<InitDeclarator>,
}

/// A declarator and its initialiser (6.7).
#[derive(Debug, Drop)]
pub struct InitDeclarator {
    pub span: Span,
    pub declarator: Declarator,
    pub initialiser: Option<Initialiser>,
}

/// An initialiser (6.7.9).
#[cycle(initialisers)]
#[derive(Debug, Drop)]
pub struct Initialiser {
    pub span: Span,
    pub form: InitForm,
}

/// What an initialiser is made of.
#[cycle(initialisers)]
#[derive(Debug, Drop)]
pub enum InitForm {
    Value(Expr),
    Braces {
        items: List<Initialiser>,
        /// Whether a comma stands before the closing brace.
        trailing: bool,
    },
}
