//! Offloads towards the frontend: what a packet leaves to it, and what it accepts.

ghost use Rattle.std.specs.Prelude.{◌≡◌};
ghost use Rattle.xen_netif.specs.Offloads.{has_extra, is_taken, rx_extra, rx_flags_at};

use crate::flags::RxFlags;
use crate::segments::{GsoExtra, NO_OFFERS, Offers, Segments};

/// The work that a packet leaves to the frontend that gets it.
#[derive(Clone, Copy, Debug, PartialEq, Eq)]
pub enum RxOffload {
    /// Nothing.
    Whole,
    /// Nothing, and its checksum was found right.
    Validated,
    /// The checksum of TCP or UDP, which is blank.
    Blank,
    /// The same, and the packet stands for many segments.
    Segmented(Segments),
}

impl RxOffload {
    /// Returns whether an extra lies behind the packet's first slot.
    pub fn has_extra(&self) -> bool
        ensures { result ≡ has_extra self.now }
    {
        matches!(self, RxOffload::Segmented(_))
    }

    /// The flags of the response to the slot that takes this page of the packet.
    pub fn flags(&self, page: u32, more_data: bool) -> RxFlags
        ensures { result ≡ rx_flags_at self.now page more_data }
    {
        let plain = RxFlags {
            more_data,
            ..RxFlags::default()
        };
        if page > 0 {
            return plain;
        }
        match self {
            RxOffload::Whole => plain,
            RxOffload::Validated => RxFlags {
                data_validated: true,
                ..plain
            },
            RxOffload::Blank => RxFlags {
                data_validated: true,
                csum_blank: true,
                ..plain
            },
            RxOffload::Segmented(_) => RxFlags {
                data_validated: true,
                csum_blank: true,
                extra_info: true,
                ..plain
            },
        }
    }

    /// The extra behind the packet's first slot, if there is one.
    pub fn extra(&self) -> Option<GsoExtra>
        ensures { result ≡ rx_extra self.now }
    {
        match self {
            RxOffload::Segmented(segments) => Some(GsoExtra {
                more: false,
                size: segments.size,
                kind: segments.kind.number(),
                features: 0,
            }),
            _ => None,
        }
    }
}

/// The offloads that a frontend says that it accepts.
#[derive(Clone, Copy, Debug, Default, PartialEq, Eq)]
pub struct Accepts {
    /// Packets whose checksum is blank, over IPv4 and IPv6.
    pub blank_checksums: bool,
    /// Packets that stand for many segments.
    pub segments: Offers,
}

/// Nothing is accepted but whole packets.
pub const ACCEPTS_WHOLE: Accepts = Accepts {
    blank_checksums: false,
    segments: NO_OFFERS,
};

impl Accepts {
    /// Returns whether the frontend takes a packet of so many bytes.
    pub fn takes(&self, offload: &RxOffload, packet: u32) -> bool
        ensures { result ≡ is_taken self.now packet offload.now }
    {
        match offload {
            RxOffload::Whole | RxOffload::Validated => true,
            RxOffload::Blank => self.blank_checksums,
            RxOffload::Segmented(segments) => {
                self.segments.has(segments.kind) && is_rx_segment(segments.size, packet)
            }
        }
    }
}

/// Returns whether a packet of so many bytes may stand for segments of this size.
fn is_rx_segment(size: u16, packet: u32) -> bool
    ensures { result ≡ Rattle.xen_netif.specs.Offloads.is_rx_segment_size packet size }
{
    0 < size && u32::from(size) <= packet
}
