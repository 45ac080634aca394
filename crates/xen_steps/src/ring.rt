//! The places of words in the ring pages, and what a producer shows.

ghost use Rattle.std.specs.Prelude.{◌≡◌, ◌<◌};
ghost use Rattle.xen_steps.specs.Places.{available, fresh, page_word, rx_entry as rx_entry_place, tx_entry as tx_entry_place};

use xen_page::Place;
use xen_ring::{rx_entry_word, tx_entry_word, unconsumed};

/// A word of a ring page's header, by its number in the page.
pub fn header(frame: u32, word: u32) -> Place
    ensures { result ≡ page_word frame word }
{
    Place { frame, word }
}

/// Word `word` of the entry that an index names, in a tx ring's page.
pub fn tx_entry(frame: u32, index: u32, word: u32) -> Place
    requires { word < 3 }
    ensures { result ≡ tx_entry_place frame index word }
{
    Place {
        frame,
        word: tx_entry_word(index, word),
    }
}

/// Word `word` of the entry that an index names, in an rx ring's page.
pub fn rx_entry(frame: u32, index: u32, word: u32) -> Place
    requires { word < 2 }
    ensures { result ≡ rx_entry_place frame index word }
{
    Place {
        frame,
        word: rx_entry_word(index, word),
    }
}

/// The number of requests that a producer shows past an index up to which all are answered, or `None` if it has
/// overflowed.
pub fn requests_shown(index: u32, producer: u32) -> Option<u32>
    ensures { result ≡ available index producer }
{
    unconsumed(producer, index, index).ok()
}

/// The number of responses that a producer shows past an index, or `None` if they are more than are outstanding.
pub fn responses_shown(index: u32, outstanding: u32, producer: u32) -> Option<u32>
    ensures { result ≡ fresh index outstanding producer }
{
    let shown = producer.wrapping_sub(index);
    (shown <= outstanding).then_some(shown)
}
