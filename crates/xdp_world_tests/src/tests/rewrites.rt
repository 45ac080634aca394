//! A frontend that rewrites a word before each access of a turn.

use super::kind::{Kind, passes};
use super::pages::{BUFFER, Bench, Rewrite, TABLE, TX, agreed, fill};
use super::programs::{PASS, accepted};
use crate::memory::{Memory, frames};
use bpf_vm::Buffer;
use std::alloc::Global;
use xen_back::{Halt, PacketRefusal};
use xen_netif::SizeFault;
use xen_page::Place;

/// A packet of 14 bytes under id 7: frame, word and value of each word that isn't 0. A turn reads the producer (access 0), the
/// slot (1 to 3), the entry (4 and 5) and the page (6 to 9).
const ONE_PACKET: [(u32, u32, u32); 11] = [
    (TX, 0, 1),
    (TX, 3, 1),
    (TX, 16, 2),
    (TX, 17, 0),
    (TX, 18, 917_511),
    (TABLE, 4, 1),
    (TABLE, 5, 19),
    (BUFFER, 0, 50_462_976),
    (BUFFER, 1, 117_835_012),
    (BUFFER, 2, 185_207_048),
    (BUFFER, 3, 252_579_084),
];

/// The slot's third word, the entry's two words, the page's first word and the producer.
const WRITES: [(Place, u32); 5] = [
    (
        Place {
            frame: TX,
            word: 18,
        },
        0xffff_0007,
    ),
    (
        Place {
            frame: TABLE,
            word: 4,
        },
        0,
    ),
    (
        Place {
            frame: TABLE,
            word: 5,
        },
        0,
    ),
    (
        Place {
            frame: BUFFER,
            word: 0,
        },
        0xffff_ffff,
    ),
    (Place { frame: TX, word: 0 }, 257),
];

/// The turn of the packet and how many accesses it makes, or how the ways to it differ.
fn turn_with(alloc: Global, write: Rewrite) -> Result<(Kind, usize), &'static str> {
    let Some(memory) = Memory::make(alloc) else {
        return Err("no memory");
    };
    let (Some(frames), Some(program)) = (frames(alloc), accepted(alloc, PASS)) else {
        return Err("no pages or no program");
    };
    let Ok(mut buffer) = Buffer::make(alloc) else {
        return Err("no buffer");
    };
    let bench = Bench {
        memory: &memory,
        frames: &frames,
        program: &program,
        start: 0,
    };
    fill(&frames, &ONE_PACKET);
    agreed(alloc, &bench, &mut buffer, &[write])
}

fn refused(cause: PacketRefusal) -> Kind {
    Kind::Refused {
        cause,
        ops: 0,
        slots: 1,
    }
}

#[test]
fn a_rewritten_word_counts_only_before_its_read(rt: HostRuntime) {
    let [slot, flags, frame, page, producer] = WRITES;
    let passed = passes([0, 1, 2, 3, 4, 5, 6, 7, 8, 9, 10, 11, 12, 13]);
    let past_page = refused(PacketRefusal::Size(SizeFault::PastPage));
    let beyond = Kind::Halted {
        cause: Halt::TxProducer,
    };
    // A write before one access, the turn that it comes to, and how many accesses that turn has.
    for (number, (place, value), turn, accesses) in [
        (4, slot, passed, 13),
        (3, slot, past_page, 7),
        (4, flags, refused(PacketRefusal::Grant), 9),
        (5, frame, refused(PacketRefusal::Grant), 9),
        (7, page, passed, 13),
        (0, producer, beyond, 1),
    ] {
        let seen = turn_with(rt.alloc(), (number, place, value));
        assert_eq!(rt;
            seen,
            Ok((turn, accesses)),
            "{place:?} before access {number}"
        );
    }
}

#[test]
fn each_write_before_each_access_gives_one_turn(rt: HostRuntime) {
    for (place, value) in WRITES {
        for number in 0..10u32 {
            let difference = turn_with(rt.alloc(), (number, place, value)).err();
            assert_eq!(rt;
                difference,
                None,
                "{place:?} = {value} before access {number}"
            );
        }
    }
}
