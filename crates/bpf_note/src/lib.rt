//! What the verifier knows at a point of a program, and the machine that it speaks of.
//!
//! - `key`, `shape`, `op`, `layout`, `constants`: the machine: how a map is looked up in and how large it is, what a program does to counters, and where
//!   memory and constants lie
//! - `val`, `slot`, `slots`: what is known of a register and of eight bytes of the stack, and what is done to these
//! - `bound`, `bounds`: what is known of ids, and lists of it; `chunk`, `chunks`, `shared`, `fingerprint`: how notes share
//!   these lists
//! - `note`: all that is known before an instruction; `spares`: notes that are done with, whose memory copies take over
//! - `joins`, `replacement`: what is known where two notes meet, and what becomes of values that carry an id
//! - `laws`: what holds of notes
#![tactic(auto)]

mod bound;
mod bounds;
mod chunk;
mod chunks;
mod constants;
mod fingerprint;
mod joins;
mod key;
mod laws;
mod layout;
mod note;
mod op;
mod replacement;
mod shape;
mod shared;
mod slot;
mod slots;
mod spares;
mod val;

pub use constants::{
    CONSTANTS_START, CONSTANTS_STRIDE, constants_are_found, constants_left, constants_lie_apart,
};
pub use joins::{covers, join, join_in_place};
pub use key::{KeyKind, MapKey};
pub use laws::{
    joins_describe_what_either_does, joins_take_either_order, joins_with_itself_change_nothing,
    notes_that_say_the_same_are_equal, the_entry_describes_every_start,
    the_entry_describes_what_is_begun, the_packet_starts_at_its_id,
};
pub use layout::{
    counters_are_found, found_counters_lie_there, narrow_addresses_stay, packets_end,
    parts_are_found,
};
pub use note::Note;
pub use op::Op;
pub use shape::MapShape;
pub use spares::Spares;
pub use val::{PACKET_ID, Val};
