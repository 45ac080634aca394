//! The arithmetic of a Xen I/O ring's indices, the words of a ring's page, and the event ports of a domain.
//!
//! - `index`: free-running indices of a ring, and when a notice is due
//! - `layout`: the words of a ring's page
//! - `overflow`: more requests than a ring has entries
//! - `port`, `ports`: event ports
#![tactic(auto)]

pub mod index;
pub mod layout;
pub mod overflow;
pub mod port;
pub mod ports;

pub use index::{RING_SIZE, due, place, unconsumed};
pub use layout::{
    FIRST_ENTRY, REQ_EVENT, REQ_PROD, RSP_EVENT, RSP_PROD, RX_ENTRY_WORDS, TX_ENTRY_WORDS,
    rx_entry_word, tx_entry_word,
};
pub use overflow::Overflow;
pub use port::{PORTS, Port};
pub use ports::Ports;
