//! The words of a ring's page (ring.h, DEFINE_RING_TYPES), for the entries of a network interface (netif.h).

ghost use Rattle.std.specs.Prelude.{◌≡◌, ◌<◌};
ghost use Rattle.xen_ring.specs.Layout.{entry_word, rx_entry_words, tx_entry_words};

use crate::index::place;

/// The word that holds the front's producer, `req_prod`.
pub const REQ_PROD: u32 = 0;
/// The word that holds the request producer at which the back wants a notice, `req_event`.
pub const REQ_EVENT: u32 = 1;
/// The word that holds the back's producer, `rsp_prod`.
pub const RSP_PROD: u32 = 2;
/// The word that holds the response producer at which the front wants a notice, `rsp_event`.
pub const RSP_EVENT: u32 = 3;
/// The word at which the entries begin.
pub const FIRST_ENTRY: u32 = 16;
/// The number of words that an entry of a tx ring has.
pub const TX_ENTRY_WORDS: u32 = 3;
/// The number of words that an entry of an rx ring has.
pub const RX_ENTRY_WORDS: u32 = 2;

/// Returns where word `word` of the entry that `index` names stands in a tx ring's page.
pub fn tx_entry_word(index: u32, word: u32) -> u32
    requires { word < 3 }
    ensures entry { result ≡ entry_word tx_entry_words index word }
    ensures in_page { result < 1024 }
{
    FIRST_ENTRY + TX_ENTRY_WORDS * place(index) + word
}

/// Returns where word `word` of the entry that `index` names stands in an rx ring's page.
pub fn rx_entry_word(index: u32, word: u32) -> u32
    requires { word < 2 }
    ensures entry { result ≡ entry_word rx_entry_words index word }
    ensures in_page { result < 1024 }
{
    FIRST_ENTRY + RX_ENTRY_WORDS * place(index) + word
}
