//! What one instruction does to the machine, and to what the verifier knows of it.
//!
//! - `rule`: the verifier's rule for one instruction: what it does (`effect`) and where it leads (`successors`), or the first
//!   cause against it
//! - `point`: a point of a program, at which the rule decides: `arithmetic`, `memory`, `branch`, `call`
//! - `alu`, `computed`, `access`: what arithmetic makes of values, and what an access lies in
//! - `graph`: what an instruction reads and writes, and where it may lead
//! - `laws`: what holds of a program's steps
#![tactic(auto)]

mod access;
mod alu;
mod arithmetic;
mod branch;
mod call;
mod computed;
mod effect;
mod graph;
mod laws;
mod memory;
mod point;
mod rule;
mod successors;

pub use graph::{jump_target, next_slot, reads, writes};
pub use laws::{
    frame_pointer_exactly_where_written, labels_fit_their_instruction,
    loads_without_constants_are_of_regions, no_step_writes_the_frame_pointer, one_label_one_state,
    steps_follow_edges, steps_keep_the_maps, unset_exactly_where_read,
};
pub use rule::{after, transfer};
pub use successors::{Successor, Successors, Ways};
