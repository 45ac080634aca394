//! Tests of [`bpf_flow`] by what it makes public. They are a crate of their own so that the gate proves bpf_flow once. What the
//! rule answers is tried by the rows of `rule_rows`.
//!
//! - `known`: values, for the tests
//! - `tests`: `registers` that are read and written, and `transfers` in place
#![tactic(auto)]

pub mod known;
#[cfg(test)]
mod tests;
