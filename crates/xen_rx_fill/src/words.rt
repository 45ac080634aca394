//! A packet's words in the posted buffers, and the responses.

ghost use Rattle.std.specs.Prelude.{◌≡◌, ◌+◌, ◌*◌, ◌/◌, ◌%◌, ◌^◌, ◌<◌, ◌≤◌, length, false, None, Some, slice_index};
ghost use Rattle.xen_rx_fill.specs.Packets.{buffer_word, extra_at, frame_in, has_more, page_in, pages, response_words, rx_response};
ghost use Rattle.xen_rx_fill.specs.Packets.{said, size_at, slot_of, slots, slots_for, status_at, takes_extra};
ghost use Rattle.xen_rx_fill.specs.Packets.{target_at as target_at_spec, word_of, words};

use crate::packet::RxPacket;
use crate::target::{Grants, Target, Targets};
use xen_netif::{GsoExtra, RxOffload, RxRsp, Status};
use xen_page::Place;

fn pages_of(bytes: &[u8]) -> u32
    requires { length bytes.now ≤ 65535 }
    ensures value { result ≡ pages bytes.now }
    ensures few { result ≤ 16 }
{
    (bytes.len() as u32 + 4095) / 4096
}

/// Returns the number of slots that the first `n` pages take.
fn slots_for(offload: &RxOffload, n: u32) -> u32
    requires { n ≤ 17 }
    ensures { result ≡ slots_for offload.now n }
{
    if offload.has_extra() { n + 1 } else { n }
}

/// Returns the number of slots that the packet takes.
pub fn slots_of(packet: &RxPacket) -> u32
    requires { length packet.now.bytes.now ≤ 65535 }
    ensures value { result ≡ slots packet.now.offload packet.now.bytes.now }
    ensures few { result ≤ 17 }
{
    slots_for(&packet.offload, pages_of(packet.bytes))
}

/// Returns whether the i-th slot takes the extra, and no page.
pub fn takes_extra(offload: &RxOffload, i: u32) -> bool
    ensures { result ≡ takes_extra offload.now i }
{
    offload.has_extra() && i == 1
}

/// The page that the i-th slot takes.
fn page_in(offload: &RxOffload, i: u32) -> u32
    ensures value { result ≡ page_in offload.now i }
    ensures before { result ≤ i }
{
    if offload.has_extra() {
        i.saturating_sub(1)
    } else {
        i
    }
}

/// The slot that takes a page.
fn slot_of(offload: &RxOffload, page: u32) -> u32
    requires { page < 2 ^ 22 }
    ensures { result ≡ slot_of offload.now page }
{
    if offload.has_extra() && page > 0 {
        page + 1
    } else {
        page
    }
}

pub fn words_of(bytes: &[u8]) -> u32
    requires { length bytes.now ≤ 65535 }
    ensures value { result ≡ words bytes.now }
    ensures few { result ≤ 16384 }
{
    (bytes.len() as u32 + 3) / 4
}

/// A byte of the packet. Those past its end are 0.
fn byte(bytes: &[u8], j: u32) -> u32
    ensures value { result ≡ slice_index bytes.now j }
    ensures small { result < 256 }
{
    match bytes.get(j as usize) {
        Some(byte) => u32::from(*byte),
        None => 0,
    }
}

/// The k-th word of the packet, which may reach past its end.
fn last_word(bytes: &[u8], k: u32) -> u32
    requires { k ≤ 16384 }
    ensures { result ≡ word_of bytes.now k }
{
    byte(bytes, 4 * k)
        + 0x100 * byte(bytes, 4 * k + 1)
        + 0x1_0000 * byte(bytes, 4 * k + 2)
        + 0x100_0000 * byte(bytes, 4 * k + 3)
}

/// The k-th word of the packet.
pub fn packet_word(bytes: &[u8], k: u32) -> u32
    requires { k ≤ 16384 }
    ensures { result ≡ word_of bytes.now k }
{
    let at = 4 * k as usize;
    if at + 4 <= bytes.len() {
        u32::from_le_bytes([bytes[at], bytes[at + 1], bytes[at + 2], bytes[at + 3]])
    } else {
        last_word(bytes, k)
    }
}

fn target_at(targets: &Targets, i: u32) -> Target
    ensures { result ≡ target_at_spec targets.now i }
{
    match targets.slots().get(i as usize) {
        Some(target) => *target,
        None => Target { id: 0, frame: None },
    }
}

/// The frame of the buffer that takes a page.
pub fn buffer_frame(offload: &RxOffload, targets: &Targets, page: u32) -> u32
    requires { page < 2 ^ 22 }
    ensures { result ≡ frame_in (target_at_spec targets.now (slot_of offload.now page)).frame }
{
    let slot = slot_of(offload, page);
    target_at(targets, slot).frame.unwrap_or(0)
}

/// Returns where the k-th word of the packet goes.
pub(crate) fn buffer_at(offload: &RxOffload, targets: &Targets, k: u32) -> Place
    ensures { result ≡ buffer_word offload.now targets.now k }
{
    Place {
        frame: buffer_frame(offload, targets, k / 1024),
        word: k % 1024,
    }
}

/// The number of the packet's bytes in a page.
fn size_of(bytes: &[u8], page: u32) -> u32
    requires short { length bytes.now ≤ 65535 }
    requires within { page < 17 }
    ensures value { result ≡ size_at bytes.now page }
    ensures small { result ≤ 4096 }
{
    let len = bytes.len() as u32;
    if len < 4096 * page + 4096 {
        len.saturating_sub(4096 * page)
    } else {
        4096
    }
}

fn status(grants: Grants, bytes: &[u8], page: u32) -> i16
    requires short { length bytes.now ≤ 65535 }
    requires within { page < 17 }
    ensures { result ≡ status_at grants bytes.now page }
{
    match grants {
        Grants::Passed => size_of(bytes, page) as i16,
        Grants::Refused => Status::Error.code(),
    }
}

/// Returns whether the response to a page's slot, one of `n`, says that there is more.
fn has_more(offload: &RxOffload, grants: Grants, n: u32, page: u32) -> bool
    requires { page < 17 }
    ensures { result ≡ has_more offload.now grants n page }
{
    match grants {
        Grants::Passed => slots_for(offload, page + 1) < n,
        Grants::Refused => false,
    }
}

/// Returns what the responses say of the offload.
fn said(grants: Grants, offload: &RxOffload) -> RxOffload
    ensures { result ≡ said grants offload.now }
{
    match grants {
        Grants::Passed => *offload,
        Grants::Refused => RxOffload::Whole,
    }
}

/// The extra that the i-th slot takes.
fn extra_at(offload: &RxOffload, i: u32) -> Option<GsoExtra>
    ensures { result ≡ extra_at offload.now i }
{
    if i == 1 { offload.extra() } else { None }
}

/// The response to a page's slot, one of `n`.
fn data_response(grants: Grants, packet: &RxPacket, n: u32, page: u32, id: u16) -> RxRsp
    requires short { length packet.now.bytes.now ≤ 65535 }
    requires within { page < 17 }
    ensures { result ≡ rx_response packet.now.offload grants packet.now.bytes.now n page id }
{
    let more_data = has_more(&packet.offload, grants, n, page);
    RxRsp {
        id,
        offset: 0,
        flags: said(grants, &packet.offload).flags(page, more_data),
        status: status(grants, packet.bytes, page),
    }
}

/// The words of the i-th response.
#[inline(always)]
pub fn response(grants: Grants, packet: &RxPacket, targets: &Targets, i: u32) -> [u32; 2]
    requires short { length packet.now.bytes.now ≤ 65535 }
    requires within { i < length targets.now }
    ensures { result ≡ response_words packet.now.offload grants packet.now.bytes.now (length targets.now) i
        (target_at_spec targets.now i).id }
{
    match extra_at(&said(grants, &packet.offload), i) {
        None => {
            let page = page_in(&packet.offload, i);
            data_response(
                grants,
                packet,
                targets.len(),
                page,
                target_at(targets, i).id,
            )
            .words()
        }
        Some(extra) => {
            let [first, second, _] = extra.words();
            [first, second]
        }
    }
}
