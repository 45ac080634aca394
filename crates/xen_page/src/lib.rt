//! Shared pages: frames of words that another domain may rewrite between any two accesses, the buses that
//! reach them, and the grants by which a domain lends its frames.
//!
//! - `place`, `access`, `bus`: a word of a frame, one access to it, and what makes it; `run`: words in a row
//! - `words`, `word_bus`, `word_recorder`: the three steps of words, the bus that is made of them, and what a step was
//! - `frames`, `shared_words`, `sharing`, `page_bus`: shared words; `plain_bus`: words that one thread owns
//! - `script_bus`, `recorder`, `rewriter`, `rewriting`, `log`: buses for tests, and what a bus reports
//! - `owners`, `extents`: who owns each frame
//! - `table`, `entry`, `fault`: a domain's grants, and why one may not be used
//! - `mapping`, `mapped`: a granted frame, mapped
//! - `laws`: what holds of these
#![tactic(auto)]

pub mod access;
pub mod bus;
pub mod entry;
pub mod extents;
pub mod fault;
pub mod frames;
mod laws;
mod log;
pub mod mapped;
pub mod mapping;
pub mod owners;
pub mod page_bus;
pub mod place;
pub mod plain_bus;
pub mod recorder;
pub mod rewriter;
mod rewriting;
mod run;
pub mod script_bus;
pub mod shared_words;
mod sharing;
pub mod table;
pub mod word_bus;
pub mod word_recorder;
pub mod words;

pub use access::Access;
pub use bus::Bus;
pub use entry::{Entry, Rights, check};
pub use extents::Extent;
pub use fault::GrantFault;
pub use frames::Frames;
pub use laws::entries_lie_in_the_table;
pub use mapped::Mapped;
pub use mapping::{map, unmap};
pub use owners::{MAX_FRAMES, Owners, OwnersFault};
pub use page_bus::PageBus;
pub use place::{Place, WORDS};
pub use plain_bus::PlainBus;
pub use recorder::Recorder;
pub use rewriter::Rewriter;
pub use script_bus::ScriptBus;
pub use shared_words::SharedWords;
pub use table::{ENTRIES, MAX_LARGE_TABLE_FRAMES, MAX_TABLE_FRAMES, Table};
pub use word_bus::WordBus;
pub use word_recorder::{MAX_STEPS, WordRecorder};
pub use words::Words;
