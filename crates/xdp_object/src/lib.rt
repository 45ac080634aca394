//! A function of an object that clang made, as a program with its maps.
//!
//! - `link`: the program's bytes, with the numbers of its maps and the addresses of its constants in wide loads
//! - `shape`: what a definition of a map is here
//! - `maps`: the names and the shapes of a program's maps; `constants`: the maps of its constants behind these
//! - `setup`: all of it
//! - `original`: the same with the numbers of given maps
//! - `fault`, `fault_number`: why there is none, and the number of each cause
#![tactic(auto)]

mod constants;
mod fault;
mod fault_number;
mod link;
mod maps;
mod original;
mod setup;
mod shape;

pub use fault::{GivenCause, MapCause, OriginalFault, SetupFault, ShapeFault};
pub use original::{GivenMaps, original_of};
pub use setup::{ObjectSetup, setup_of};
