//! Reading C expressions, type names, specifiers and declarators (ISO/IEC 9899:2011, 6.5, 6.7).
#![tactic(auto)]

mod calls;
mod declarator;
mod exprs;
mod laws;
mod looks;
mod names;
mod nodes;
mod part;
mod reader;
mod scope;
mod shape;
mod specifier;
mod suffixes;
mod typenodes;
mod types;

pub use calls::{expression, type_name};
pub use laws::{one_expression, one_type_name, reads_expressions, reads_type_names};
pub use names::Names;
pub use part::{Part, above, begun, checked, joined, over};
pub use reader::Reader;
pub use scope::Scope;
pub use shape::Shape;
