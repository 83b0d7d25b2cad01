//! Tests of the reading of C syntax: the calls of `dm_pexpr` and `dm_pstmt`, called as the layers above call them.
#![tactic(auto)]

#[cfg(test)]
mod bodies;
#[cfg(test)]
mod expressions;
#[cfg(test)]
mod externals;
#[cfg(test)]
mod reading;
#[cfg(test)]
mod sizes;
#[cfg(test)]
mod units;
