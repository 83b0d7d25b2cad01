//! The numbers of refusals, as they are printed. `specs/Refusals.antt` has them for clauses.

/// A character, or a quote, that is no token of C.
pub const BYTE: u8 = 1;

/// An unclosed comment.
pub const COMMENT: u8 = 2;

/// A lone quote.
pub const LITERAL: u8 = 3;

/// An unknown directive, or one that lacks a token that it needs.
pub const DIRECTIVE: u8 = 4;

/// A definition that 6.10.3 doesn't allow, or of a name that can't be defined.
pub const FORM: u8 = 5;

/// `else`, `elif` or `endif` out of place, or a file that ends inside a group.
pub const CONDITIONALS: u8 = 6;

/// A header or a main file that isn't found.
pub const NOT_FOUND: u8 = 7;

/// A file whose last newline is deleted by a backslash.
pub const SPLICE: u8 = 8;

/// A wrong number of arguments, or no closing `)`.
pub const ARGUMENTS: u8 = 9;

/// A `##` that doesn't make one token.
pub const PASTE: u8 = 10;

/// A `#` that isn't before a parameter.
pub const HASH_OPERAND: u8 = 11;

/// A definition that differs from the first.
pub const REDEFINITION: u8 = 12;

/// No conditional expression with a value.
pub const CONDITION: u8 = 13;

/// `#error`.
pub const ERROR_DIRECTIVE: u8 = 14;

/// A constant that has no value or no type.
pub const CONSTANT: u8 = 15;

/// Where no external declaration of the subset begins.
pub const SYNTAX: u8 = 16;

/// A broken typing rule.
pub const TYPING: u8 = 17;

/// What is left out of the subset of C that is read.
pub const OUT_OF_SUBSET: u8 = 18;

/// A unit without `main`, where one is to run.
pub const NO_MAIN: u8 = 19;
