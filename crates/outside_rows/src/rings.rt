//! Questions about rings: ring.h's macros.

ghost use Rattle.outside_rows.specs.Shown.{shown};
ghost use Rattle.std.specs.Prelude.{◌≡◌, IfOk, string_bytes};

use crate::numbers::numbers;
use std::alloc::{AllocError, Global};
use xen_ring::{
    REQ_EVENT, REQ_PROD, RING_SIZE, RSP_EVENT, RSP_PROD, RX_ENTRY_WORDS, TX_ENTRY_WORDS, due,
    rx_entry_word, tx_entry_word, unconsumed,
};
use xen_steps::responses_shown;

/// Returns the number of entries that a producer shows.
fn shown(alloc: Global, count: Option<u32>) -> Result<String, AllocError>
    ensures { IfOk result (λ s. string_bytes s ≡ shown count) }
{
    match count {
        Some(count) => format!(in alloc; "{count}"),
        None => format!(in alloc; "overflow"),
    }
}

pub fn answer(alloc: Global, kind: &str, rest: &str) -> Result<Option<String>, AllocError> {
    let [a, b, c] = numbers(rest);
    Ok(Some(match kind {
        "requests" => shown(alloc, unconsumed(a, b, c).ok())?,
        "responses" => shown(alloc, responses_shown(a, RING_SIZE, b))?,
        "notice" => format!(in alloc; "{}", due(a, b, c))?,
        "entries" => format!(in alloc; "{} {}", tx_entry_word(a, 0), rx_entry_word(a, 0))?,
        "header" => format!(in alloc; "{REQ_PROD} {REQ_EVENT} {RSP_PROD} {RSP_EVENT}")?,
        "sizes" => format!(in alloc; "{RING_SIZE} {TX_ENTRY_WORDS} {RX_ENTRY_WORDS}")?,
        _ => return Ok(None),
    }))
}
