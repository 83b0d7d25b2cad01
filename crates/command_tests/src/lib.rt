//! Tests of what the commands stand on: words, manifests, reports and generated units.
#![tactic(auto)]

#[cfg(test)]
mod generated;
#[cfg(test)]
mod manifest;
#[cfg(test)]
mod report;
#[cfg(test)]
mod words;
