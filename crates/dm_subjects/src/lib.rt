//! The definitions of a project that are judged, each with the key by which it is found again after an edit; whether the units that an
//! edit touches stay aligned; and the files that are written (ISO/IEC 9899:2011, 6.9, 6.10.3).
#![tactic(auto)]

mod alignments;
mod files;
mod found;
mod held;
mod lines;
mod listing;
mod newlines;
mod subject;
mod tables;

pub use alignments::aligned_news;
pub use files::changed_files;
pub use found::{definition_at, definition_by};
pub use held::bytes_at;
pub use lines::Lines;
pub use listing::subjects;
pub use subject::Subject;
pub use tables::{Known, News, indexes_with, tables_of};
