//! Packets on their way to a frontend, and what it accepts.

use xen_netif::{ACCEPTS_WHOLE, Accepts, GsoType, Offers, RxFlags, RxOffload, Segments};

const TCP_V4: Offers = Offers {
    gso_tcpv4: true,
    gso_tcpv6: false,
};

const ACCEPTS_BLANK: Accepts = Accepts {
    blank_checksums: true,
    ..ACCEPTS_WHOLE
};

const ACCEPTS_TCP_V4: Accepts = Accepts {
    blank_checksums: true,
    segments: TCP_V4,
};

fn segmented(kind: GsoType, size: u16) -> RxOffload {
    RxOffload::Segmented(Segments { kind, size })
}

/// The bits of a response's flags.
fn bits(offload: RxOffload, page: u32, more_data: bool) -> u16 {
    offload.flags(page, more_data).bits()
}

#[test]
fn first_response_says_the_offload(rt: HostRuntime) {
    // netif.h: data_validated 1, csum_blank 2, more_data 4, extra_info 8
    for (offload, wanted) in [
        (RxOffload::Whole, 0),
        (RxOffload::Validated, 1),
        (RxOffload::Blank, 3),
        (segmented(GsoType::TcpV4, 1448), 11),
        (segmented(GsoType::TcpV6, 1428), 11),
    ] {
        assert_eq!(rt; bits(offload, 0, false), wanted);
        assert_eq!(rt; bits(offload, 0, true), wanted + 4);
        assert_eq!(rt; bits(offload, 1, false), 0);
        assert_eq!(rt; bits(offload, 15, true), 4);
    }
    assert_eq!(rt; RxOffload::Whole.flags(0, false), RxFlags::default());
}

#[test]
fn extra_says_the_segments(rt: HostRuntime) {
    // netif.h: type 1, no flag, size 1,448; type 1 or 2, no feature
    for (kind, second) in [(GsoType::TcpV4, 1), (GsoType::TcpV6, 2)] {
        let extra = segmented(kind, 1448).extra();
        let words = match extra {
            Some(extra) => extra.words(),
            None => [0; 3],
        };
        assert_eq!(rt; words, [0x05a8_0001, second, 0]);
    }
    for offload in [RxOffload::Whole, RxOffload::Validated, RxOffload::Blank] {
        assert_eq!(rt; offload.extra(), None);
        assert_eq!(rt; offload.has_extra(), false);
    }
}

#[test]
fn frontend_takes_what_it_accepts(rt: HostRuntime) {
    for accepts in [ACCEPTS_WHOLE, ACCEPTS_BLANK, ACCEPTS_TCP_V4] {
        assert_eq!(rt; accepts.takes(&RxOffload::Whole, 60), true);
        assert_eq!(rt; accepts.takes(&RxOffload::Validated, 60), true);
        assert_eq!(rt;
            accepts.takes(&RxOffload::Blank, 60),
            accepts.blank_checksums
        );
        assert_eq!(rt;
            accepts.takes(&segmented(GsoType::TcpV6, 1428), 9000),
            false
        );
    }
    assert_eq!(rt;
        ACCEPTS_BLANK.takes(&segmented(GsoType::TcpV4, 1448), 9000),
        false
    );
    for (size, taken) in [
        (0, false),
        (1, true),
        (1448, true),
        (9000, true),
        (9001, false),
    ] {
        let offload = segmented(GsoType::TcpV4, size);
        assert_eq!(rt; ACCEPTS_TCP_V4.takes(&offload, 9000), taken, "of {size}");
    }
}
