//! Tests of [`xdp_commands`] by what it makes public. They are a crate of their own so that the gate proves xdp_commands once.
//!
//! - `tests`: the `words` of a command and the `lines` that it prints, and reads and writes that fail: `failing`, `failing_runs`, by
//!   `readers`
#![tactic(auto)]

#[cfg(test)]
mod tests;
