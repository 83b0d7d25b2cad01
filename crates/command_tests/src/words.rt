//! What words ask for.

mod bad;
mod good;
