//! Words that a model's back answers, mostly those of an honest one, and what they say.

use super::fixtures::End;
use super::model::Random;
use xen_front::RxOffload;
use xen_netif::{GsoType, Segments};

/// The word of an rx response's flags and status, mostly of a small one, with `left` responses left after it. An extra may
/// come behind it.
pub fn flags_and_status(left: u32, may_have_extra: bool, random: &mut Random) -> u32 {
    if random.is_wild() {
        return random.number();
    }
    let wants_more = random.small(1) == 0 && (left > 0 || random.is_wild());
    let more = if wants_more { 4 } else { 0 };
    let checksum = match random.small(15) {
        0 => 1,
        1 => 3,
        _ => 0,
    };
    let extra = if may_have_extra && left > 0 && random.small(3) == 0 {
        8
    } else {
        0
    };
    let status = match random.small(15) {
        0 => 0xFFFF,
        1 => 0,
        2 => 4096,
        _ => random.small(63),
    };
    more | checksum | extra | status << 16
}

/// Returns what the first response of a packet says of its checksum.
pub fn said(second: u32) -> RxOffload {
    if second & 2 != 0 {
        RxOffload::Blank
    } else if second & 1 != 0 {
        RxOffload::Validated
    } else {
        RxOffload::Whole
    }
}

/// The two words of an extra, mostly of a good one.
pub fn extra_words(random: &mut Random) -> [u32; 2] {
    match random.small(31) {
        0 => [random.number(), random.number()],
        1 => [1, 1],
        2 => [0x05b4_0101, 1],
        3 => [0x05b4_0002, 1],
        4 => [0x05b4_0001, 2],
        _ => [0x0001_0001 | random.number() << 16, 1],
    }
}

/// The segments that an extra's words say, if a front that takes TCP over IPv4 takes it.
pub fn segments_in([first, second]: [u32; 2]) -> Option<Segments> {
    let is_alone = first & 0x1ff == 1;
    let size = first >> 16;
    if !is_alone || size == 0 || second & 0xff != 1 {
        return None;
    }
    Some(Segments {
        kind: GsoType::TcpV4,
        size: (size % 0x1_0000) as u16,
    })
}

/// Returns what a whole chain gives.
pub fn given(bad: bool, offload: RxOffload) -> End {
    if bad {
        End::Refused
    } else {
        End::Packet(offload)
    }
}

/// Returns whether the status of a response with this second word is negative.
pub fn is_negative(second: u32) -> bool {
    second >> 16 >= 0x8000
}

/// Returns the number of bytes that a response with this second word has.
pub fn size_of(second: u32) -> u32 {
    if is_negative(second) { 0 } else { second >> 16 }
}
