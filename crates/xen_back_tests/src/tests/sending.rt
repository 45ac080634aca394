//! A transmit by itself, fed by hand.

ghost use Rattle.std.specs.Prelude.{◌≤◌, length};

use super::delivered::FOURTEEN;
use super::fixtures::{access_to, read, write};
use std::alloc::Global;
use xen_netif::RxOffload;
use xen_page::{Access, Owners, Table};
use xen_ring::Port;
use xen_rx_fill::{Progress, RxPacket, Transmit, TransmitOutcome, Vif};
use xen_steps::Want;

/// Returns what a transmit comes to whose first rx slot is at `start`, and adds its accesses. None if it has no end.
fn sent(
    vif: &Vif,
    start: u32,
    packet: &RxPacket,
    answers: &[u32],
    accesses: &mut Vec<Access>,
) -> Option<TransmitOutcome>
    requires { length packet.now.bytes.now ≤ 65535 }
{
    let mut given = answers.iter();
    let mut transmit = Transmit::begin();
    for _event in 0..20_000u32 {
        let want = transmit.want(vif, start, packet);
        let word = match want {
            Want::Read(_) => given.next().copied().unwrap_or(0),
            _ => 0,
        };
        if let Some(access) = access_to(want, word) {
            accesses.push(access).ok()?;
        }
        match transmit.feed(vif, start, packet, word) {
            Progress::On(later) => transmit = later,
            Progress::Over(outcome) => return Some(outcome),
        }
    }
    None
}

/// Returns what the transmit of fourteen bytes comes to, if it makes these accesses.
fn sent_with(
    alloc: Global,
    vif: &Vif,
    start: u32,
    answers: &[u32],
    accesses: &[Access],
) -> Option<TransmitOutcome> {
    let mut made = Vec::new(alloc);
    let packet = RxPacket {
        offload: RxOffload::Whole,
        bytes: &FOURTEEN,
    };
    let outcome = sent(vif, start, &packet, answers, &mut made);
    if made.as_slice() == accesses {
        outcome
    } else {
        None
    }
}

/// As [`sent_with`]: frame 1 is the frontend's grant table, and frame 18 its rx ring.
fn outcome(
    alloc: Global,
    start: u32,
    answers: &[u32],
    accesses: &[Access],
) -> Option<TransmitOutcome> {
    let port = Port::of(1)?;
    let mut domains = [1; 20];
    domains[0] = 0;
    let owners = Owners::make(alloc, &domains).ok()?;
    let table = Table::make(&owners, 1, &[1])?;
    let vif = Vif {
        tx: 17,
        rx: 18,
        table: &table,
        owners: &owners,
        granter: 1,
        user: 0,
        port,
    };
    sent_with(alloc, &vif, start, answers, accesses)
}

#[test]
fn a_packet_goes_into_a_posted_buffer(rt: HostRuntime) {
    for (start, entry, shown) in [(0, 16, 1), (0xffff_ffff, 526, 0)] {
        let accesses = [
            read(18, 0, shown),
            read(18, entry, 9),
            read(18, entry + 1, 5),
            read(1, 10, 1),
            read(1, 11, 16),
            write(16, 0, 0x0302_0100),
            write(16, 1, 0x0706_0504),
            write(16, 2, 0x0b0a_0908),
            write(16, 3, 0x0000_0d0c),
            write(18, entry, 9),
            write(18, entry + 1, 0x000e_0000),
            write(18, 2, shown),
            read(18, 3, shown),
        ];
        let answers = [shown, 9, 5, 1, 16, shown];
        let found = outcome(rt.alloc(), start, &answers, &accesses);
        assert_eq!(rt; found, Some(TransmitOutcome::Sent(1)));
    }
}

#[test]
fn a_grant_for_reading_alone_is_refused(rt: HostRuntime) {
    let accesses = [
        read(18, 0, 1),
        read(18, 16, 9),
        read(18, 17, 5),
        read(1, 10, 5),
        read(1, 11, 16),
        write(18, 16, 9),
        write(18, 17, 0xffff_0000),
        write(18, 2, 1),
        read(18, 3, 0),
    ];
    let found = outcome(rt.alloc(), 0, &[1, 9, 5, 5, 16, 0], &accesses);
    assert_eq!(rt; found, Some(TransmitOutcome::Refused(1)));
}

#[test]
fn nothing_is_used_where_too_few_are_posted(rt: HostRuntime) {
    for (producer, wanted) in [
        (7, TransmitOutcome::TooFew),
        (264, TransmitOutcome::Overflow),
    ] {
        let found = outcome(rt.alloc(), 7, &[producer], &[read(18, 0, producer)]);
        assert_eq!(rt; found, Some(wanted));
    }
}
