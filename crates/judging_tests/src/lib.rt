//! Tests of the judging of macros: the calls of `dm_names`, `dm_judge`, `dm_alignment` and `dm_subjects` over the readings of whole projects.
#![tactic(auto)]

#[cfg(test)]
mod alignments;
#[cfg(test)]
mod listing;
#[cfg(test)]
mod names;
#[cfg(test)]
mod projects;
#[cfg(test)]
mod proposals;
