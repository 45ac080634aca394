//! Packets that come back, and answers.

ghost use Rattle.std.specs.Prelude.{◌≡◌, IfSome};

use crate::bench::{Bench, PASSES, Rows, SENDS_BACK, TURNS, program, rows_of, setup};
use std::alloc::{AllocError, Global};
use std::sync::Wait;
use std::sync::atomic::{AtomicU32, Ordering};
use std::thread::Threads;
use thread_pair::{Deliveries, Inbox, OnPass, Open, PairRow};
use xdp_load::{SentPacket, Setup};

/// The different packets of a queue.
const KINDS: u32 = 100;
/// The number of times each of them is sent.
const TIMES: u32 = 10;

/// The length of a packet: one in sixteen takes two slots.
fn length(queue: usize, kind: u32) -> usize {
    if kind % 16 == 5 {
        4096 + 14
    } else {
        14 + queue % 8 + kind as usize % 64
    }
}

/// Its bytes: the queue's number, the packet's in two bytes, and then a pattern of both.
fn byte(queue: usize, kind: u32, at: usize) -> u8 {
    match at {
        0 => (queue % 256) as u8,
        1 => (kind % 256) as u8,
        _ => ((at % 251) as u8)
            .wrapping_mul(7)
            .wrapping_add((kind % 256) as u8)
            .wrapping_add((queue % 256) as u8),
    }
}

fn add_bytes(bytes: &mut Vec<u8>, queue: usize, kind: u32) -> Result<(), AllocError> {
    for at in 0..length(queue, kind) {
        bytes.push(byte(queue, kind, at))?;
    }
    Ok(())
}

fn packet(alloc: Global, queue: usize, kind: u32) -> Result<SentPacket, AllocError> {
    let mut bytes = Vec::new(alloc);
    add_bytes(&mut bytes, queue, kind)?;
    Ok(SentPacket {
        queue,
        bytes,
        times: TIMES,
    })
}

fn add_packets(alloc: Global, packets: &mut Vec<SentPacket>) -> Result<(), AllocError> {
    for queue in 0..8 {
        for kind in 0..KINDS {
            packets.push(packet(alloc, queue, kind)?)?;
        }
    }
    Ok(())
}

/// A setup of all packets of eight queues.
fn all_packets(alloc: Global) -> Option<Setup>
    ensures { IfSome result (λ s. s.queues ≡ 8) }
{
    let mut packets = Vec::new(alloc);
    match add_packets(alloc, &mut packets) {
        Ok(()) => Some(setup(alloc, 8, 0, packets)),
        Err(_) => None,
    }
}

/// Compares what comes to a front with what it sent, in order.
#[derive(Drop)]
struct Compared {
    /// True if an address stands where the other one was sent.
    exchanged: bool,
    /// The number of packets that came to each queue.
    came: [AtomicU32; 8],
    /// The number of them that weren't the next one that was sent.
    wrong: AtomicU32,
}

impl Compared {
    fn new(exchanged: bool) -> Compared {
        Compared {
            exchanged,
            came: [
                AtomicU32::new(0),
                AtomicU32::new(0),
                AtomicU32::new(0),
                AtomicU32::new(0),
                AtomicU32::new(0),
                AtomicU32::new(0),
                AtomicU32::new(0),
                AtomicU32::new(0),
            ],
            wrong: AtomicU32::new(0),
        }
    }
}

/// Returns where the byte was sent that comes at this place of a packet.
fn sent_at(exchanged: bool, at: usize) -> usize {
    match at {
        0..=5 if exchanged => at + 6,
        6..=11 if exchanged => at - 6,
        _ => at,
    }
}

/// Returns whether this is the packet of that kind.
fn is_packet(exchanged: bool, queue: usize, kind: u32, packet: &[u8]) -> bool {
    if packet.len() != length(queue, kind) {
        return false;
    }
    for (at, found) in packet.iter().enumerate() {
        if *found != byte(queue, kind, sent_at(exchanged, at)) {
            return false;
        }
    }
    true
}

impl Inbox for Compared {
    fn take(&self, queue: usize, packet: &[u8]) {
        let number = self.came[queue % 8].fetch_add(1, Ordering::SeqCst);
        if !is_packet(self.exchanged, queue, number / TIMES, packet) {
            self.wrong.fetch_add(1, Ordering::SeqCst);
        }
    }
}

fn compared_rows(
    rt: &(impl Threads + Wait + Sync),
    alloc: Global,
    slots: &[&str],
    host: OnPass,
    compared: &Compared,
) -> Option<Rows> {
    let setup = all_packets(alloc)?;
    let (bench, parkers) = Bench::with_host(alloc, setup, host)?;
    match program(alloc, slots, &[]) {
        Some(program) => bench.rows(rt, alloc, &program, TURNS, &Open, compared, parkers),
        None => None,
    }
}

#[test]
fn all_packets_of_eight_queues_come_back(rt: HostRuntime) {
    let compared = Compared::new(false);
    let rows = compared_rows(&rt, rt.alloc(), SENDS_BACK, OnPass::Takes, &compared);
    let row = PairRow {
        sent: u64::from(KINDS * TIMES),
        copied: u64::from(KINDS * TIMES),
        refused: 0,
        halted: None,
        received: u64::from(KINDS * TIMES),
        deliveries: Deliveries::NONE,
    };
    assert_eq!(rt; rows, Some(rows_of(&[row; 8])));
    assert_eq!(rt; compared.wrong.load(Ordering::SeqCst), 0);
    for came in &compared.came {
        assert_eq!(rt; came.load(Ordering::SeqCst), KINDS * TIMES);
    }
}

#[test]
fn all_packets_of_eight_queues_are_answered(rt: HostRuntime) {
    let compared = Compared::new(true);
    let rows = compared_rows(&rt, rt.alloc(), PASSES, OnPass::Answers, &compared);
    let packets = u64::from(KINDS * TIMES);
    let row = PairRow {
        sent: packets,
        copied: packets,
        refused: 0,
        halted: None,
        received: packets,
        deliveries: Deliveries {
            sent: packets,
            few: 0,
            refused: 0,
        },
    };
    assert_eq!(rt; rows, Some(rows_of(&[row; 8])));
    assert_eq!(rt; compared.wrong.load(Ordering::SeqCst), 0);
    for came in &compared.came {
        assert_eq!(rt; came.load(Ordering::SeqCst), KINDS * TIMES);
    }
}
