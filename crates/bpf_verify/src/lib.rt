//! The verifier: which programs are accepted, and with what notes.
//!
//! - `verifier`: both passes; `verified`: an accepted program; `stopped`, `out_of_memory`: why there is none
//! - `structure`: the first pass, over all slots (`slot`); `graph`: the flow graph, its order and its cycles
//! - `notes`: the second pass, by the notes at a slot (`note_list`)
//! - `flat`: the form in which the interpreter takes instructions
//! - `lost`, `joined`: where a register was an address last, for explanations
//! - `laws`: what holds of the answers
#![tactic(auto)]

mod flat;
mod graph;
mod joined;
mod laws;
mod lost;
mod note_list;
mod notes;
mod out_of_memory;
mod slot;
mod stopped;
mod structure;
mod verified;
mod verifier;

pub use bpf_insn::{Cause, Refusal};
pub use bpf_note::MapShape;
pub use flat::FlatInsn;
pub use graph::{pass_order, pass_order_is_unique, pass_order_rises, runs_are_short};
pub use joined::joined_at;
pub use laws::{faultless_programs_are_accepted, refusals_are_unique};
pub use lost::{Lost, lost_at};
pub use structure::first_fault;
pub use verified::Verified;
pub use verifier::{Explained, explain, verify};
