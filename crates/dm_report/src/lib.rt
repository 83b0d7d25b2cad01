//! The report of a plan, as text and as JSON.
#![tactic(auto)]

mod as_json;
mod as_text;
mod counts;
mod laws;
mod lines;
mod titles;
mod values;
mod words;

pub use as_json::json;
pub use as_text::text;
pub use counts::{kept_count, rewritten_count};
pub use laws::ascii_names_stay;
