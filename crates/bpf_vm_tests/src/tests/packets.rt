//! Packets in a lent buffer.
ghost use Rattle.std.specs.Prelude.{◌≡◌, ◌≤◌, ◌++◌, length};

use bpf_vm::{Buffer, Fill, PacketBuf, PacketFault, STACK_SIZE};
use std::alloc::Global;

/// The length of a packet, or the reason why it is none.
type Length = Result<usize, PacketFault>;

fn length(packet: Result<PacketBuf<'_>, PacketFault>) -> Length {
    match packet {
        Ok(packet) => Ok(packet.bytes().len()),
        Err(fault) => Err(fault),
    }
}

/// The lengths of packets of 65,535 and 65,536 bytes that are copied.
fn copied_lengths(alloc: Global) -> Option<[Length; 2]> {
    let mut buffer = Buffer::make(alloc).ok()?;
    let Ok(bytes) = vec![in alloc; 5u8; 65536] else {
        return None;
    };
    let longest = length(PacketBuf::copy(&mut buffer, &bytes[..65535]));
    Some([longest, length(PacketBuf::copy(&mut buffer, &bytes))])
}

/// The lengths of packets over 65,535 and 65,536 bytes of a host's own.
fn own_lengths(alloc: Global) -> Option<[Length; 2]> {
    let Ok(mut bytes) = vec![in alloc; 5u8; 65536] else {
        return None;
    };
    let mut stack = [0; STACK_SIZE];
    let longest = length(PacketBuf::over(&mut bytes[..65535], &mut stack));
    Some([longest, length(PacketBuf::over(&mut bytes, &mut stack))])
}

#[test]
fn packets_end_at_65535_bytes(rt: HostRuntime) {
    let wanted = Some([Ok(65535), Err(PacketFault::TooLong)]);
    let found = [copied_lengths(rt.alloc()), own_lengths(rt.alloc())];
    assert_eq!(rt; found, [wanted; 2]);
}

/// Returns whether a packet over a host's own bytes has them, and whether it has the bytes that are pushed after it was cleared;
/// the host's bytes after that.
fn pushed_to_own() -> Option<([bool; 2], [u8; 3])> {
    let mut own = [1, 2, 3];
    let mut stack = [0; STACK_SIZE];
    let mut packet = PacketBuf::over(&mut own, &mut stack).ok()?;
    let has_own = packet.bytes() == [1, 2, 3].as_slice();
    packet.clear();
    packet.push(9);
    packet.push_all(&[8]);
    let has_pushed = &*packet.into_bytes() == [9, 8].as_slice();
    Some(([has_own, has_pushed], own))
}

#[test]
fn a_packet_over_a_hosts_own_bytes(rt: HostRuntime) {
    assert_eq!(rt; pushed_to_own(), Some(([true, true], [9, 8, 3])));
}

/// Returns how long a packet is; whether one that is pushed to the same buffer has its own bytes alone; how many it has once it is
/// cleared.
fn pushed_to(buffer: &mut Buffer) -> Option<(usize, bool, usize)> {
    let first = PacketBuf::copy(buffer, &[1, 2, 3, 4]).ok()?.bytes().len();
    let mut packet = PacketBuf::empty(buffer);
    packet.push(9);
    packet.push_all(&[8, 7]);
    packet.push_all(&[]);
    let has_pushed = packet.bytes() == [9, 8, 7].as_slice();
    packet.clear();
    Some((first, has_pushed, packet.bytes().len()))
}

/// [`pushed_to`] for a new buffer.
fn pushed_to_same(alloc: Global) -> Option<(usize, bool, usize)> {
    pushed_to(&mut Buffer::make(alloc).ok()?)
}

#[test]
fn a_shorter_packet_in_the_same_buffer(rt: HostRuntime) {
    assert_eq!(rt; pushed_to_same(rt.alloc()), Some((4, true, 0)));
}

/// Takes bytes off the front of a slice.
#[derive(Clone, Copy)]
struct Front;

impl<'s> Fill<&'s [u8]> for Front {
    ghost fits = { λ _ source count. count ≤ length source.now };

    ghost fills = { λ _ old bytes new. old.now ≡ bytes ++ new.now };

    fn fill(&self, source: &mut &'s [u8], room: &mut [u8]) {
        let bytes: &'s [u8] = source;
        let (front, behind) = bytes.split_at(room.len());
        room.copy_from_slice(front);
        *source = behind;
    }
}

/// The bytes of a packet that is filled by two, by one and by none off a slice, and how many are left of the slice.
fn filled(buffer: &mut Buffer) -> Option<([u8; 4], usize)> {
    let mut source: &[u8] = &[1, 2, 3, 4, 5];
    let mut packet = PacketBuf::empty(buffer);
    packet.push(9);
    packet.push_from(2, &Front, &mut source);
    packet.push_from(1, &Front, &mut source);
    packet.push_from(0, &Front, &mut source);
    let bytes = packet.bytes();
    if bytes.len() != 4 {
        return None;
    }
    Some(([bytes[0], bytes[1], bytes[2], bytes[3]], source.len()))
}

/// [`filled`] for a new buffer.
fn filled_anew(alloc: Global) -> Option<([u8; 4], usize)> {
    filled(&mut Buffer::make(alloc).ok()?)
}

#[test]
fn a_packet_is_filled_where_it_lies(rt: HostRuntime) {
    assert_eq!(rt; filled_anew(rt.alloc()), Some(([9, 1, 2, 3], 2)));
}
