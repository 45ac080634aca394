//! Words of a ring's page. Their values come from ring.h's and netif.h's structs, compiled by a C compiler.

use xen_ring::{
    REQ_EVENT, REQ_PROD, RING_SIZE, RSP_EVENT, RSP_PROD, RX_ENTRY_WORDS, TX_ENTRY_WORDS,
    rx_entry_word, tx_entry_word,
};

#[test]
fn the_header_stands_before_the_entries(rt: HostRuntime) {
    assert_eq!(rt; [REQ_PROD, REQ_EVENT, RSP_PROD, RSP_EVENT], [0, 1, 2, 3]);
    assert_eq!(rt; [RING_SIZE, TX_ENTRY_WORDS, RX_ENTRY_WORDS], [256, 3, 2]);
}

/// An index, the first and the last word of its tx entry, and those of its rx entry.
const ENTRIES: [(u32, [u32; 4]); 5] = [
    (0, [16, 18, 16, 17]),
    (1, [19, 21, 18, 19]),
    (255, [781, 783, 526, 527]),
    (256, [16, 18, 16, 17]),
    (0xFFFF_FFFF, [781, 783, 526, 527]),
];

#[test]
fn entries_stand_one_behind_another(rt: HostRuntime) {
    for (index, words) in ENTRIES {
        let found = [
            tx_entry_word(index, 0),
            tx_entry_word(index, 2),
            rx_entry_word(index, 0),
            rx_entry_word(index, 1),
        ];
        assert_eq!(rt; found, words, "entry {index}");
    }
}
