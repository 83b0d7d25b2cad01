//! Tests of the typing of expressions: the call of `dm_eexpr`, called as the layers above call it.
#![tactic(auto)]

#[cfg(test)]
mod refusals;
#[cfg(test)]
mod scene;
#[cfg(test)]
mod showing;
#[cfg(test)]
mod sizes;
#[cfg(test)]
mod spans;
#[cfg(test)]
mod trees;
#[cfg(test)]
mod typing;
