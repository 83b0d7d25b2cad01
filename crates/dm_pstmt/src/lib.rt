//! Reading C declarations, statements and external declarations (ISO/IEC 9899:2011, 6.7 to 6.9).
#![tactic(auto)]

mod clauses;
mod declaration;
mod declares;
mod external;
mod initialiser;
mod laws;
mod loops;
mod next;
mod nodes;
mod statement;

pub use laws::{externals_are_inside, one_external, reads_externals};
pub use next::next_external;
