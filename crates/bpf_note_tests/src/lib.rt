//! Tests of [`bpf_note`] by what it makes public. They are a crate of their own so that the gate proves bpf_note once.
//!
//! - `known`: what a note says, as plain values
//! - `tests`: the parts of `notes`, and `shapes` of maps; joins are rows of `rule_rows`
#![tactic(auto)]

pub mod known;
#[cfg(test)]
mod tests;
