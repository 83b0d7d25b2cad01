//! Values of the abstract machine that `dm_meaning` defines (ISO/IEC 9899:2011, 6.2.6): integers and what operators do with them,
//! pointers, structs and arrays, and the places that paths name (6.5.6p7).
#![tactic(auto)]

mod arithmetic;
mod causes;
mod integer;
mod items;
mod parts;
mod path;
mod place;
mod value;

pub use arithmetic::{converted, counted, operated, signed, updated};
pub use causes::{sooner, when};
pub use integer::Integer;
pub use items::nth;
pub use path::{Part, Path};
pub use place::{At, Name};
pub use value::{Pointer, Value};
