//! The commands of `xdpbox`: what its words ask for, what is done, and what is printed.
//!
//! - `program`: a call of the program: what its words ask for (`request`, `command_line`), and the `answer`, or why there is
//!   none (`stop`)
//! - `input`, `output`: reading settings, and writing
//! - `executing`, `explaining`, `comparing`, `comparing_functions`, `comparing_answer`, `filtering`, `pairing`: what each command
//!   does
//! - `help`: what `help` and `version` print
//! - `lines`, `turn_lines`, `pair_lines`, `counter_lines`, `numbers`: what is printed
#![tactic(auto)]

mod answer;
mod command_line;
mod comparing;
mod comparing_answer;
mod comparing_functions;
mod counter_lines;
mod executing;
mod explaining;
mod filtering;
mod help;
mod input;
mod lines;
mod numbers;
mod output;
mod pair_lines;
mod pairing;
mod program;
mod request;
mod stop;
mod turn_lines;

pub use counter_lines::add_counters;
pub use help::Topic;
pub use pair_lines::{paired_status, paired_text};
pub use pairing::{Paired, outcome};
pub use program::{print_memory, run_words};
pub use request::{Request, read_words};
