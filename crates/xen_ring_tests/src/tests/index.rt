//! Triples of indices. Their values come from ring.h's macros, compiled by a C compiler.

use xen_ring::{Overflow, due, place, unconsumed};

#[test]
fn counts_what_is_unconsumed(rt: HostRuntime) {
    let rows = [
        (0x0, 0x0, 0x0, Ok(0)),
        (0x1, 0x0, 0x0, Ok(1)),
        (0xFF, 0x0, 0x0, Ok(255)),
        (0x100, 0x0, 0x0, Ok(256)),
        (0x101, 0x0, 0x0, Err(Overflow)),
        (0x5, 0x5, 0x5, Ok(0)),
        (0x5, 0x3, 0x2, Ok(2)),
        (0x102, 0x3, 0x2, Ok(255)),
        (0x103, 0x3, 0x2, Err(Overflow)),
        (0x1, 0xFFFFFFFF, 0xFFFFFFFF, Ok(2)),
        (0x0, 0xFFFFFFFF, 0xFFFFFFFF, Ok(1)),
        (0xFFFFFFFF, 0xFFFFFFFF, 0xFFFFFFFF, Ok(0)),
        (0xFE, 0xFFFFFFFE, 0xFFFFFFFE, Ok(256)),
        (0xFF, 0xFFFFFFFF, 0xFFFFFFFF, Ok(256)),
        (0x100, 0xFFFFFFFF, 0xFFFFFFFF, Err(Overflow)),
        (0x0, 0x1, 0x1, Err(Overflow)),
        (0xFFFFFFFF, 0x0, 0x0, Err(Overflow)),
        (0x80000000, 0x7FFFFFFF, 0x7FFFFF80, Ok(1)),
        (0x80000000, 0x80000000, 0x7FFFFF00, Ok(0)),
        (0x80000000, 0x80000000, 0x7FFFFEFF, Err(Overflow)),
    ];
    for (prod, cons, rsp, count) in rows {
        assert_eq!(rt; unconsumed(prod, cons, rsp), count, "{prod} {cons} {rsp}");
    }
}

#[test]
fn notices_where_the_event_was_passed(rt: HostRuntime) {
    let rows = [
        (0x5, 0x8, 0x6, true),
        (0x5, 0x8, 0x9, false),
        (0x5, 0x8, 0x5, false),
        (0xFFFFFFFE, 0x1, 0x0, true),
        (0x5, 0x8, 0x7, true),
        (0x5, 0x8, 0x8, true),
        (0x5, 0x8, 0x4, false),
        (0x0, 0x0, 0x0, false),
        (0x0, 0x0, 0x1, false),
        (0x0, 0x1, 0x1, true),
        (0x0, 0x1, 0x0, false),
        (0x0, 0x1, 0x2, false),
        (0x0, 0x100, 0x1, true),
        (0x0, 0x100, 0x100, true),
        (0x0, 0x100, 0x101, false),
        (0x0, 0x100, 0x0, false),
        (0xFFFFFFFF, 0x0, 0x0, true),
        (0xFFFFFFFF, 0x0, 0xFFFFFFFF, false),
        (0xFFFFFFFF, 0x0, 0x1, false),
        (0xFFFFFFFE, 0x1, 0xFFFFFFFF, true),
        (0xFFFFFFFE, 0x1, 0x1, true),
        (0xFFFFFFFE, 0x1, 0x2, false),
        (0xFFFFFFFE, 0x1, 0xFFFFFFFE, false),
        (0x7FFFFFFF, 0x80000001, 0x80000000, true),
        (0x7FFFFFFF, 0x80000001, 0x80000002, false),
    ];
    for (old, new, event, noticed) in rows {
        assert_eq!(rt; due(old, new, event), noticed, "{old} {new} {event}");
    }
}

#[test]
fn places_wrap(rt: HostRuntime) {
    for (index, entry) in [
        (0, 0),
        (255, 255),
        (256, 0),
        (0xFFFF_FFFF, 255),
        (0x8000_0001, 1),
    ] {
        assert_eq!(rt; place(index), entry);
    }
}

#[test]
fn an_overflow_says_what_it_is(rt: HostRuntime) -> Result<(), std::test::Fail> {
    let text = format!(in rt.alloc(); "{}", Overflow)?;
    assert_eq!(rt;
        text.as_str(),
        "the producer is more than a whole ring ahead"
    );
    Ok(())
}
