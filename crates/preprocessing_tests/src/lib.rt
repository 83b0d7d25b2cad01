//! Tests of the stages of preprocessing, each by itself (ISO/IEC 9899:2011, 5.1.1.2): phases 1 to 3, macros, conditions and C tokens.
#![tactic(auto)]

#[cfg(test)]
mod cond;
#[cfg(test)]
mod ctok;
#[cfg(test)]
mod lex;
#[cfg(test)]
mod macros;
#[cfg(test)]
mod phase;
