//! Tests of the reading of translation units: the calls of `dm_read` and `dm_eunit`, called as the layers above call them.
#![tactic(auto)]

#[cfg(test)]
mod declared;
#[cfg(test)]
mod entries;
#[cfg(test)]
mod readings;
#[cfg(test)]
mod refusals;
#[cfg(test)]
mod sizes;
#[cfg(test)]
mod syntax;
#[cfg(test)]
mod trees;
#[cfg(test)]
mod typing;
#[cfg(test)]
mod units;
