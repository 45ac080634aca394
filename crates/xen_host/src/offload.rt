//! What a guest leaves undone of its packet.

ghost use Rattle.std.specs.Prelude.{◌≡◌, None};

use std::marker::Model;
use xen_netif::{Segments, TxFlags};

/// The work that a guest leaves undone of its packet. The flags of its first slot are kept as the bits of `netif.h`, and told apart when
/// they are asked for.
#[derive(Drop)]
pub struct Offload {
    bits: u16,
    segments: Option<Segments>,
}

impl Model for Offload {
    ghost use Rattle.xen_netif.specs.Slots.{tx_flags_of};
    ghost use Rattle.xen_host.specs.Offload.{Offload};

    ghost Value = { Offload };

    ghost view = { λ o. record { flags = tx_flags_of o.bits; segments = o.segments } };
}

impl Offload {
    ghost use Rattle.xen_netif.specs.Slots.{tx_flags_of};
    ghost use Rattle.xen_host.specs.Offload.{segment_size, segment_type};
    ghost use Rattle.xen_host.specs.Rest.{no_offload};

    /// That of a turn that has read no slot.
    #[inline(always)]
    pub(crate) fn none() -> Offload
        ensures { result ≡ no_offload }
    {
        Offload {
            bits: 0,
            segments: None,
        }
    }

    /// That of a first slot with these flags' bits.
    #[inline(always)]
    pub(crate) fn of_bits(bits: u16) -> Offload
        ensures flags { result.flags ≡ tx_flags_of bits }
        ensures segments { result.segments ≡ None }
    {
        Offload {
            bits,
            segments: None,
        }
    }

    /// The same with these segments.
    #[inline(always)]
    pub(crate) fn cut_into(&self, segments: Option<Segments>) -> Offload
        ensures flags { result.flags ≡ self.now.flags }
        ensures segments { result.segments ≡ segments }
    {
        Offload {
            bits: self.bits,
            segments,
        }
    }

    /// The flags of its first slot.
    pub(crate) fn flags(&self) -> TxFlags
        ensures { result ≡ self.now.flags }
    {
        TxFlags::of_bits(self.bits)
    }

    /// The segments into which it is to be cut.
    pub(crate) fn segments(&self) -> Option<Segments>
        ensures { result ≡ self.now.segments }
    {
        self.segments
    }

    /// The number of their type, and 0 for none.
    pub(crate) fn segment_type(&self) -> u16
        ensures { result ≡ segment_type self.now.segments }
    {
        match self.segments {
            Some(segments) => u16::from(segments.kind.number()),
            None => 0,
        }
    }

    /// The most bytes of payload in each, and 0 for none.
    pub(crate) fn segment_size(&self) -> u16
        ensures { result ≡ segment_size self.now.segments }
    {
        match self.segments {
            Some(segments) => segments.size,
            None => 0,
        }
    }
}
