//! The syntax trees of C (ISO/IEC 9899:2011, 6.5 to 6.9), their yield and their height, and the grammar as a definition.
#![tactic(auto)]

mod declaration;
mod declarators;
mod declared;
mod expression;
mod heights;
mod statement;
mod symbol;
mod tokens;

pub use declaration::{
    Declaration, Declarator, Direct, EnumForm, EnumItem, InitDeclarator, InitForm, Initialiser,
    MemberForm, Parameter, Specifier, Specifiers, StructForm, TypeName,
};
pub use declarators::{declarator_name, is_absent, is_nothing};
pub use declared::Declared;
pub use expression::{Expr, ExprForm};
pub use heights::height;
pub use statement::{
    External, ExternalForm, ForStart, Item, Stmt, StmtForm, SwitchForm, SwitchItem,
};
pub use symbol::{Symbol, infix_level, symbol_of};
pub use tokens::yield_of;
