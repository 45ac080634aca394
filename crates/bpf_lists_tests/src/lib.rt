//! Tests of [`bpf_lists`] by what it makes public. They are a crate of their own so that the gate proves bpf_lists once.
//!
//! - `tests`: `exact` keys, `prefixes`, `many` rows, `refusals`, and `growth`; rows that Linux's maps gave are in `outside_rows`
#![tactic(auto)]

#[cfg(test)]
mod tests;
