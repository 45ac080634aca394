//! Tests of [`xen_drive`] by its public calls: what the shipped queue makes over a bus is what `xen_back`'s queue makes.
//!
//! - `bench`: the shipped queue, and what a host has beside it
//! - `tests`: `turns`, `deliveries` and `waits` by their tables; `fixtures` is for all of them
#![tactic(auto)]

pub mod bench;
#[cfg(test)]
mod tests;
