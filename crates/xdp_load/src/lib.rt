//! The settings of a run, read from a TOML text.
//!
//! - `key`: the keys, and the limits and what is allowed at each; `spot`: where one is refused, and what is said of it (`lines`,
//!   `line_words`); `fault`: why and where settings are refused
//! - `table`, `rows`, `kinds`: a document's keys, and the type of each
//! - `document`, `numbers`, `limits`, `names`, `packets`, `relocations`: the phases, each of which refuses the first fault of its own
//!   kind where it comes to it
//! - `values`: the numbers that counters begin with
//! - `setup`: all phases in their order, and the setup that they give
//! - `original`, `rewritten`: settings that have the program too of which theirs was made; `function`: or a function of an object
//! - `listed`: settings whose maps may have lists, by `keyed`, `listed_document`, `keyed_limits` and `lists`
//! - `laws`: what holds of settings
#![tactic(auto)]

mod document;
mod fault;
mod function;
mod key;
mod keyed;
mod keyed_limits;
mod kinds;
mod laws;
mod limits;
mod line_words;
mod lines;
mod listed;
mod listed_document;
mod lists;
mod names;
mod numbers;
mod original;
mod packets;
mod relocations;
mod rewritten;
mod rows;
mod setup;
mod spot;
mod table;
mod values;

pub use fault::{Fault, LoadError, Part, Refused, TextFault};
pub use function::{Beside, OfFunction, load_beside};
pub use key::Key;
pub use laws::{
    relocated_loads_are_of_maps, settings_without_lists_are_read_as_ever, sound_setups_are_written,
};
pub use listed::{Listed, load_listed};
pub use original::OriginalPlace;
pub use packets::SentPacket;
pub use rewritten::Rewritten;
pub use setup::{Setup, load};
pub use spot::{Spot, fault_text};
