//! Fragments of chains and the words that they cover.

ghost use Rattle.std.specs.Prelude.{◌≡◌};

use crate::answers::{bytes_in, has_fragments, states, states_after};
use xen_netif::{ChainState, Fragment, SizeFault, TxFlags, TxReq};

/// The words of a data slot with this offset and size.
fn slot((offset, size): (u16, u16), more_data: bool) -> [u32; 3] {
    let flags = TxFlags {
        more_data,
        ..TxFlags::default()
    };
    let request = TxReq {
        gref: 8 + u32::from(offset),
        offset,
        flags,
        id: 7,
        size,
    };
    request.words()
}

/// Two data slots with these offsets and sizes.
fn two([first, last]: [(u16, u16); 2]) -> [[u32; 3]; 2] {
    [slot(first, true), slot(last, false)]
}

fn fragment(offset: u16, size: u16) -> Fragment
    ensures offset { result.offset ≡ offset }
    ensures size { result.size ≡ size }
{
    Fragment {
        gref: 8 + u32::from(offset),
        offset,
        size,
    }
}

#[test]
fn first_has_what_the_others_leave(rt: HostRuntime) {
    for (parts, fragments) in [
        ([(0, 100), (64, 40)], [fragment(0, 60), fragment(64, 40)]),
        ([(0, 14), (64, 0)], [fragment(0, 14), fragment(64, 0)]),
        ([(9, 40), (0, 40)], [fragment(9, 0), fragment(0, 40)]),
    ] {
        assert_eq!(rt; has_fragments(&two(parts), &fragments), Ok(true));
    }
    let at_the_end = slot((4082, 14), false);
    assert_eq!(rt;
        has_fragments(&[at_the_end], &[fragment(4082, 14)]),
        Ok(true)
    );
}

#[test]
fn refusals(rt: HostRuntime) {
    for (parts, fault) in [
        ([(0, 13), (0, 0)], SizeFault::ShortPacket),
        ([(0, 100), (0, 101)], SizeFault::LaterSizes),
        ([(4083, 14), (0, 0)], SizeFault::PastPage),
        ([(0, 100), (4057, 40)], SizeFault::PastPage),
        // An earlier cause comes first.
        ([(4083, 13), (0, 14)], SizeFault::ShortPacket),
        ([(4083, 14), (0, 15)], SizeFault::LaterSizes),
    ] {
        assert_eq!(rt; has_fragments(&two(parts), &[]), Err(Some(fault)));
    }
}

#[test]
fn extra_comes_first(rt: HostRuntime) {
    let short_with_extra = TxReq {
        flags: TxFlags {
            extra_info: true,
            ..TxFlags::default()
        },
        ..TxReq::default()
    };
    let first = short_with_extra.words();
    assert_eq!(rt;
        states_after(&[&[first], &[[1, 0, 0]]]),
        states(&[(Ok(ChainState::Extra), 1), (Ok(ChainState::Complete), 2)])
    );
    assert_eq!(rt;
        has_fragments(&[first, [1, 0, 0]], &[]),
        Err(Some(SizeFault::ExtraInfo))
    );
}

#[test]
fn fault_numbers(rt: HostRuntime) {
    let numbers = [
        SizeFault::ShortPacket.number(),
        SizeFault::LaterSizes.number(),
        SizeFault::PastPage.number(),
        SizeFault::ExtraInfo.number(),
    ];
    assert_eq!(rt; numbers, [1, 2, 3, 5]);
}

#[test]
fn covers_words(rt: HostRuntime) {
    for (offset, size, words) in [
        (4082, 14, 1020..1024),
        (0, 0, 0..0),
        (7, 0, 1..1),
        (7, 1, 1..2),
        (7, 2, 1..3),
        (0, 4, 0..1),
        (0, 5, 0..2),
    ] {
        let fragment = fragment(offset, size);
        assert_eq!(rt;
            (fragment.covered_words(), fragment.is_in_page()),
            (words, true),
            "at {offset}"
        );
    }
    assert!(rt; !fragment(4083, 14).is_in_page());
}

#[test]
fn whole_words_lie_in_the_fragment(rt: HostRuntime) {
    // none, at a word's beginning and inside it; two; one, of which the others are covered in part; none of a word, and of two
    for (offset, size, words) in [
        (0, 0, 0..0),
        (4095, 0, 1023..1023),
        (0, 8, 0..2),
        (4082, 14, 1021..1024),
        (3, 8, 1..2),
        (29, 2, 8..8),
        (30, 4, 8..8),
    ] {
        assert_eq!(rt; fragment(offset, size).whole_words(), words, "at {offset}");
    }
}

#[test]
fn one_word_of_two_fragments(rt: HostRuntime) {
    assert_eq!(rt;
        bytes_in(fragment(0, 30), 7, 0x4433_2211),
        [Some(0x11), Some(0x22), None, None]
    );
    assert_eq!(rt;
        bytes_in(fragment(30, 30), 7, 0x8877_6655),
        [Some(0x77), Some(0x88), None, None]
    );
    assert_eq!(rt;
        bytes_in(fragment(29, 2), 7, 0x4433_2211),
        [Some(0x22), Some(0x33), None, None]
    );
}
