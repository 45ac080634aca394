//! An accepted program with its maps, run on a host's own bytes and counters.
//!
//! - `program`: an accepted program that its holder owns, and its calls
//! - `tallies`: the counters of a run, wherever they are
//! - `run`: whole runs over them
//! - `lists`: the lists of its maps
//! - `reading`, `settings`, `names`: settings texts, and their programs with the names of their maps
//! - `relisting`, `spelled`: lists of a program that come from another settings text
//! - `fault`: why there is no program
#![tactic(auto)]

mod fault;
mod lists;
mod names;
mod program;
mod reading;
mod relisting;
mod run;
mod settings;
mod spelled;
mod tallies;

pub use bpf_insn::{Cause, Refusal};
pub use bpf_verify::MapShape;
pub use bpf_vm::{Ended, STACK_SIZE};
pub use fault::{LoadFault, RelistFault, SettingsFault};
pub use lists::Lists;
pub use names::MapNames;
pub use program::{Program, Run};
pub use reading::read_settings;
pub use run::{run_counting, run_on};
pub use settings::{NamedProgram, load_settings};
pub use tallies::{CounterWords, Seated, Tallies};
pub use xdp_load::{Fault, TextFault};
