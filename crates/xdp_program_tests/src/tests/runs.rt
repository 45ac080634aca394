//! Runs over a host's own bytes and counters.
use crate::loading::{ended, ended_again, ended_over, sizes};
use crate::tests::{ADDS, NUMBERS, PASS};

#[test]
fn a_packet_passes(rt: HostRuntime) {
    let mut packet = [1, 2, 3];
    let end = ended(rt.alloc(), PASS, &mut [], &mut packet, (0, 0));
    assert_eq!(rt; (end, packet), (Some((2, 2)), [1, 2, 3]));
}

#[test]
fn interface_and_queue_are_told_apart(rt: HostRuntime) {
    let mut packet = [9, 9, 9, 9, 9, 9, 9, 9, 9, 9, 9, 9, 9, 9];
    let end = ended(rt.alloc(), NUMBERS, &mut [], &mut packet, (7, 1));
    let [queue, ifindex, next, ..] = packet;
    assert_eq!(rt; (end, queue, ifindex, next), (Some((3, 11)), 1, 7, 9));
}

#[test]
fn a_short_packet_stays(rt: HostRuntime) {
    let mut packet = [9, 9, 9, 9, 9, 9, 9, 9, 9, 9, 9, 9, 9];
    let end = ended(rt.alloc(), NUMBERS, &mut [], &mut packet, (7, 1));
    assert_eq!(rt; (end, packet), (Some((3, 7)), [9; 13]));
}

#[test]
fn a_counter_wraps_and_is_loaded(rt: HostRuntime) {
    let mut counters = [10, 11, 12, 13, 14, 15, 16, u64::MAX];
    let end = ended(rt.alloc(), ADDS, &mut counters, &mut [0], (0, 0));
    assert_eq!(rt; sizes(rt.alloc(), ADDS), Some((10, 8)));
    assert_eq!(rt;
        (end, counters),
        (Some((2, 10)), [10, 11, 12, 13, 14, 15, 16, 2])
    );
}

#[test]
fn a_word_too_many_stays(rt: HostRuntime) {
    let mut counters = [10, 11, 12, 13, 14, 15, 16, 17, 18];
    let end = ended(rt.alloc(), ADDS, &mut counters, &mut [0], (0, 0));
    assert_eq!(rt;
        (end, counters),
        (Some((20, 10)), [10, 11, 12, 13, 14, 15, 16, 20, 18])
    );
}

#[test]
fn nothing_runs_with_a_word_too_few(rt: HostRuntime) {
    let mut counters = [10, 11, 12, 13, 14, 15, 16];
    let end = ended(rt.alloc(), ADDS, &mut counters, &mut [0], (0, 0));
    assert_eq!(rt;
        (end, counters),
        (Some((0, 0)), [10, 11, 12, 13, 14, 15, 16])
    );
}

/// Bytes of a packet, the end of a run without maps and with them, and the counter.
const LENGTHS: [(usize, (u32, u32), (u32, u32), u64); 2] = [
    (65_535, (2, 2), (3, 10), 3),
    (65_536, (0, 0), (0, 0), 0),
];

#[test]
fn a_packet_has_65535_bytes_at_most(rt: HostRuntime) {
    for (length, plain, counting, counter) in LENGTHS {
        let mut counters = [0; 8];
        let end = ended_over(rt.alloc(), PASS, &mut [], length);
        assert_eq!(rt; end, Some(plain));
        let end = ended_over(rt.alloc(), ADDS, &mut counters, length);
        assert_eq!(rt; (end, counters[7]), (Some(counting), counter));
    }
}

#[test]
fn a_program_is_made_again(rt: HostRuntime) {
    let mut counters = [0; 8];
    let ends = ended_again(rt.alloc(), ADDS, &mut counters);
    assert_eq!(rt; ends, Some(((3, 10), (6, 10))));
}
