//! Tests of [`bpf_same`] by what it makes public. They are a crate of their own so that the gate proves it once.
//!
//! - `pairs`: what a comparison answers of a pair of programs in hex
//! - `tests`: pairs with the `same` runs; with other numbers of slots alone (`renumbered`); with the same by `counts`, and those of which a count is used otherwise (`counts_used`) or
//!   stands apart (`counts_apart`); pairs of both kinds by `ranges`; and pairs that differ by `jumps`, by what the new program has of
//!   its `own`, by the `stack`, or by guards and counters (`ends`); pairs of which the old program adds alone until it has `caught` up;
//!   pairs that load a counter again (`loaded`);
//!   and where a comparison stops (`obstacles`)
#![tactic(auto)]

pub mod pairs;
#[cfg(test)]
mod tests;
