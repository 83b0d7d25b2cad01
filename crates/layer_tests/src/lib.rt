//! Tests of the calls of `dm_type`, `dm_tree`, `dm_syn`, `dm_search`, `dm_expand`, `dm_unit`, `dm_runs` and `dm_sites`, called as the layers
//! above call them.
#![tactic(auto)]

#[cfg(test)]
mod expansion;
#[cfg(test)]
mod folders;
#[cfg(test)]
mod known_types;
#[cfg(test)]
mod runs;
#[cfg(test)]
mod search;
#[cfg(test)]
mod sites;
#[cfg(test)]
mod syntax;
#[cfg(test)]
mod tree;
#[cfg(test)]
mod types;
#[cfg(test)]
mod units;
