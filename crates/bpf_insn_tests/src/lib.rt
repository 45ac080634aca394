//! Tests of [`bpf_insn`] by what it makes public. They are a crate of their own so that the gate proves bpf_insn once.
//!
//! - `decoding`: what decoding answers, as plain values
//! - `tests`: `spelling` and `encoding` of each form, refused `prefixes`, `arithmetic` by values from outside, and `growth`
#![tactic(auto)]

pub mod decoding;
#[cfg(test)]
mod tests;
