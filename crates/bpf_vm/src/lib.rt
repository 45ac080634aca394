//! The interpreter of accepted programs, and the packets that they run on.
//!
//! - `vm`: an interpreter: `want`, what it waits for; `turn`, what an instruction came to; `ended`, how a run ended
//! - `run`: a whole run of a program without maps
//! - `running`: all instructions up to one that waits; `flow`: one in its flat form; `execute`: one by its kind
//! - `machine`, `memory`, `bytes`: registers, stack and packet, and what is done to them; `lookup`: lookups in maps;
//!   `constants`: loads of constants
//! - `packet`, `buffer`, `fill`: a packet, the memory that it lies in, and how it is filled
//! - `action`: the actions of XDP
//! - `laws`: what holds of accepted programs
#![tactic(auto)]

mod action;
mod buffer;
mod bytes;
mod constants;
mod ended;
mod execute;
mod fill;
mod flow;
mod laws;
mod lookup;
mod machine;
mod memory;
mod packet;
mod run;
mod running;
mod turn;
mod vm;
mod want;

pub use action::{Action, XDP_DROP, XDP_PASS, XDP_TX};
pub use buffer::Buffer;
pub use ended::Ended;
pub use fill::Fill;
pub use laws::{accepted_programs_end, verified_programs_end};
pub use packet::{PacketBuf, PacketFault, STACK_SIZE};
pub use run::run_to_end;
pub use vm::Vm;
pub use want::VmWant;
