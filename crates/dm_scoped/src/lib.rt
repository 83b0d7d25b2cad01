//! What holds of typed units beside their types (ISO/IEC 9899:2011, 6.2.1, 6.2.4): names of automatic objects stand in the scopes of their
//! declarations, and the nodes of typed trees where their syntax stands.
#![tactic(auto)]

mod examples;
mod laws;

pub use examples::a_local_is_in_scope_in_its_block;
pub use laws::{
    automatic_objects_are_in_blocks, expressions_are_laid_out,
    external_declarations_keep_their_spans, statements_are_laid_out, units_are_laid_out,
    units_are_scoped,
};
