//! A replay of the second of two queues, with an interface of its own.

use super::kind::{Kind, kind_of, passes};
use super::programs::accepted;
use std::alloc::Global;
use xdp_world::{Report, replay};

/// The queue and the interface go into the packet's first two bytes, and it passes.
#[rattlefmt::skip]
const NUMBERS: &[u64] = &[
    0xb7000000_02000000, // r0 = 2
    0x61120000_00000000, // r2 = data
    0x61130400_00000000, // r3 = data_end
    0xbf240000_00000000, // r4 = r2
    0x07040000_0e000000, // r4 += 14
    0x2d340400_00000000, // if r4 > r3 goto +4
    0x61151000_00000000, // r5 = rx_queue_index
    0x73520000_00000000, // *(u8 *)(r2 + 0) = r5
    0x61150c00_00000000, // r5 = ingress_ifindex
    0x73520100_00000000, // *(u8 *)(r2 + 1) = r5
    0x95000000_00000000, // exit
];

/// The producer; a slot of reference 516, the first buffer of queue 1, with id 7 and 14 bytes; a grant of frame 533; the page;
/// and the event index.
#[rattlefmt::skip]
const READS: [u32; 11] = [
    1, 516, 0, 917_511, 1, 533, 50_462_976, 117_835_012, 185_207_048, 252_579_084, 0,
];

/// Returns the number of turns that the first of two queues made, and the only turn of the second.
fn turns_of(report: &Report) -> Option<(usize, Kind)> {
    match report.turns.as_slice() {
        [first, second] => match second.as_slice() {
            [turn] => Some((first.len(), kind_of(turn))),
            _ => None,
        },
        _ => None,
    }
}

fn replayed(alloc: Global) -> Option<(usize, Kind)> {
    let program = accepted(alloc, NUMBERS)?;
    match replay(alloc, &program, 2, 7, 0, 1, &READS) {
        Ok(report) => turns_of(&report),
        Err(_) => None,
    }
}

#[test]
fn a_replay_is_of_its_queue_and_interface(rt: HostRuntime) {
    let turn = passes([1, 7, 2, 3, 4, 5, 6, 7, 8, 9, 10, 11, 12, 13]);
    assert_eq!(rt; replayed(rt.alloc()), Some((0, turn)));
}
