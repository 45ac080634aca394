//! Where words of rings lie, what producers show, and answers, by `xen_steps`.

use xen_page::Place;
use xen_ring::RSP_PROD;
use xen_steps::{Answer, header, requests_shown, responses_shown, rx_entry, tx_entry};

#[test]
fn words_of_rings(rt: HostRuntime) {
    assert_eq!(rt; header(7, RSP_PROD), Place { frame: 7, word: 2 });
    assert_eq!(rt;
        tx_entry(7, 0xFFFF_FFFF, 2),
        Place {
            frame: 7,
            word: 783
        }
    );
    assert_eq!(rt;
        rx_entry(7, 0xFFFF_FFFF, 1),
        Place {
            frame: 7,
            word: 527
        }
    );
    assert_eq!(rt; tx_entry(7, 256, 0), Place { frame: 7, word: 16 });
}

#[test]
fn what_producers_show(rt: HostRuntime) {
    for (index, producer, shown) in [
        (0, 0, Some(0)),
        (0, 256, Some(256)),
        (0, 257, None),
        (0xFFFF_FFFF, 1, Some(2)),
        (1, 0, None),
    ] {
        assert_eq!(rt;
            requests_shown(index, producer),
            shown,
            "{index} {producer}"
        );
    }
    for (index, outstanding, producer, shown) in [
        (0, 0, 0, Some(0)),
        (0, 3, 3, Some(3)),
        (0, 3, 4, None),
        (0xFFFF_FFFF, 3, 2, Some(3)),
        (0xFFFF_FFFF, 3, 3, None),
        (5, 3, 4, None),
    ] {
        assert_eq!(rt;
            responses_shown(index, outstanding, producer),
            shown,
            "{index} {producer}"
        );
    }
}

#[test]
fn answers_have_their_numbers(rt: HostRuntime) {
    assert_eq!(rt; Answer::Word(0xFFFF_FFFF).word(), 0xFFFF_FFFF);
    assert_eq!(rt; Answer::Word(7).counter(), 0);
    assert_eq!(rt; Answer::Counter(0x1_0000_0000).counter(), 0x1_0000_0000);
    assert_eq!(rt; Answer::Counter(7).word(), 0);
    assert_eq!(rt; Answer::Nothing.word(), 0);
}
