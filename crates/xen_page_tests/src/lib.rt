//! Tests of [`xen_page`] by what it makes public. They are a crate of their own so that the gate proves xen_page once.
//!
//! - `bench`: what buses, entries and mappings answer, as plain values
//! - `tests`: `buses`, `plain` words, `runs` of words, the `steps` of a bus, `entries`, `tables`, `extents`, `mappings`, `threads`, and `growth`
#![tactic(auto)]

pub mod bench;
#[cfg(test)]
mod tests;
