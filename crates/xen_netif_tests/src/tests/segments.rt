//! Packets with an extra, and what a queue offers.

use crate::answers::{Taken, taken};
use xen_netif::{GsoExtra, GsoType, NO_OFFERS, Offers, Segments, SizeFault, TxFlags, TxReq};

const TCP_V4: Offers = Offers {
    gso_tcpv4: true,
    gso_tcpv6: false,
};

const TCP_V6: Offers = Offers {
    gso_tcpv4: false,
    gso_tcpv6: true,
};

/// A packet of so many bytes in its first slot, which says that an extra follows.
fn first(size: u16) -> [u32; 3] {
    let request = TxReq {
        flags: TxFlags {
            extra_info: true,
            ..TxFlags::default()
        },
        size,
        ..TxReq::default()
    };
    request.words()
}

/// The words of an extra with a segment size and the number of a segmentation's type.
fn extra(size: u16, kind: u8) -> [u32; 3] {
    let extra = GsoExtra {
        more: false,
        size,
        kind,
        features: 0,
    };
    extra.words()
}

/// A packet of 1,500 bytes in one slot, with an extra.
fn packet(size: u16, kind: u8) -> [[u32; 3]; 2] {
    [first(1500), extra(size, kind)]
}

/// The packet is taken, with these segments.
fn segmented(kind: GsoType, size: u16) -> Taken {
    Ok((Some(Segments { kind, size }), 1))
}

/// The packet is refused, since its extra isn't taken.
fn refused() -> Taken {
    Err(Some(SizeFault::ExtraInfo))
}

#[test]
fn words_of_an_extra(rt: HostRuntime) {
    // netif.h: type 1, flags 1, size 1,448; type 2, features 0x0304
    let words = [0x05a8_0101, 0x0304_0002, 0];
    let wanted = GsoExtra {
        more: true,
        size: 1448,
        kind: 2,
        features: 0x0304,
    };
    let with_what_has_no_name = [0x05a8_ff01, 0x0304_ff02, 0xffff_ffff];
    assert_eq!(rt; wanted.words(), words);
    assert_eq!(rt;
        [
            GsoExtra::of_words(words),
            GsoExtra::of_words(with_what_has_no_name)
        ],
        [Some(wanted); 2]
    );
    for other in [0x05a8_0100, 0x05a8_0102, 0x05a8_0104, 0x05a8_01ff] {
        assert_eq!(rt; GsoExtra::of_words([other, 0, 0]), None, "at {other:x}");
    }
}

#[test]
fn types_have_numbers(rt: HostRuntime) {
    for (number, kind) in [
        (0, None),
        (1, Some(GsoType::TcpV4)),
        (2, Some(GsoType::TcpV6)),
        (3, None),
        (255, None),
    ] {
        assert_eq!(rt; GsoType::of_number(number), kind, "at {number}");
    }
    assert_eq!(rt; [GsoType::TcpV4.number(), GsoType::TcpV6.number()], [1, 2]);
}

#[test]
fn offered_types_are_taken(rt: HostRuntime) {
    for size in [536, 1448, 1500] {
        assert_eq!(rt;
            taken(&packet(size, 1), TCP_V4),
            segmented(GsoType::TcpV4, size)
        );
        assert_eq!(rt;
            taken(&packet(size, 2), TCP_V6),
            segmented(GsoType::TcpV6, size)
        );
    }
    assert_eq!(rt; taken(&packet(1448, 2), TCP_V4), refused());
    assert_eq!(rt; taken(&packet(1448, 1), TCP_V6), refused());
    for kind in [1, 2] {
        assert_eq!(rt; taken(&packet(1448, kind), NO_OFFERS), refused());
    }
}

#[test]
fn sizes_and_types_that_lie(rt: HostRuntime) {
    for size in [0, 1, 535, 1501, 65535] {
        assert_eq!(rt; taken(&packet(size, 1), TCP_V4), refused(), "of {size}");
    }
    for kind in [0, 3, 255] {
        assert_eq!(rt; taken(&packet(1448, kind), TCP_V4), refused(), "of {kind}");
    }
    // another type of extra, and a second extra
    for other in [0x05a8_0002, 0x05a8_0003, 0x05a8_0004, 0x05a8_0005] {
        assert_eq!(rt;
            taken(&[first(1500), [other, 1, 0]], TCP_V4),
            refused(),
            "at {other:x}"
        );
    }
    let two = [first(1500), [0x05a8_0101, 1, 0], extra(1448, 1)];
    assert_eq!(rt; taken(&two, TCP_V4), refused());
}

#[test]
fn sizes_come_after_the_extra(rt: HostRuntime) {
    let short = [first(13), extra(1448, 1)];
    assert_eq!(rt; taken(&short, TCP_V4), refused());
    let past_its_page = [first(4097), extra(1448, 1)];
    assert_eq!(rt;
        taken(&past_its_page, TCP_V4),
        Err(Some(SizeFault::PastPage))
    );
}

#[test]
fn data_follows_the_extra(rt: HostRuntime) {
    let mut begin = TxReq::of_words(first(4000));
    begin.flags.more_data = true;
    let end = TxReq {
        size: 1000,
        ..TxReq::default()
    };
    let slots = [begin.words(), extra(1448, 1), end.words()];
    let segments = Segments {
        kind: GsoType::TcpV4,
        size: 1448,
    };
    assert_eq!(rt; taken(&slots, TCP_V4), Ok((Some(segments), 2)));
    assert_eq!(rt; taken(&[end.words()], TCP_V4), Ok((None, 1)));
}
