//! The types that the layers of Demacrofier share: texts and lists that contracts see as plain values, places in
//! files, refusals and limits, and the tokens, definitions and expansions of translation phases 3 to 7
//! (ISO/IEC 9899:2011, 5.1.1.2).
#![tactic(auto)]

mod boxed;
mod bytes;
mod expansion;
pub mod limit_numbers;
mod limits;
mod list;
mod name;
mod place;
pub mod refusals;
mod stop;
mod text;
mod token;
mod trail;
mod unit;

pub use boxed::Boxed;
pub use bytes::is_digit;
pub use expansion::{Definition, Expansion, Mark, Origin};
pub use limits::{
    GREATEST_HEIGHT, HEADER_COUNT, MOST_DEFINITIONS, MOST_FILES, MOST_INCLUSIONS, MOST_NESTED,
    MOST_TOKENS, MOST_TYPE_BYTES, MOST_UNITS, MOST_WORK, USUAL_STEPS, greatest_int,
    source_length_limit,
};
pub use list::List;
pub use name::is_normal_name;
pub use place::{Place, Span, place_at};
pub use stop::{Limit, Memory, Refusal, Stop};
pub use text::{Buffer, Text};
pub use token::{CToken, Class, PpKind, PpToken, Token};
pub use trail::Trail;
pub use unit::{Read, Unit, UnitTokens, Use};
