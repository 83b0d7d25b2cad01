//! Tests of the crates that all others stand on: tokens and texts, spellings, integers, files, scopes, rows, parentheses and edits.
#![tactic(auto)]

#[cfg(test)]
mod edit;
#[cfg(test)]
mod int;
#[cfg(test)]
mod io;
#[cfg(test)]
mod parentheses;
#[cfg(test)]
mod row;
#[cfg(test)]
mod scope;
#[cfg(test)]
mod spell;
#[cfg(test)]
mod token;
