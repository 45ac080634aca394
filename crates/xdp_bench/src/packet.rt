//! The packets that a frontend publishes.
ghost use Rattle.std.specs.Prelude.{◌≤◌};

/// The number of turns or deliveries that are timed at once, if the ring has room for their packets.
const BATCH: u32 = 16;

/// The entries of a ring.
const RING: u32 = 256;

/// The bytes of a page.
const PAGE: usize = 4096;

/// The headers of a TCP packet of Linux, which lie in a page of their own.
const HEADERS: usize = 66;

/// Packets of one size, or none. Each takes `slots` slots.
#[derive(Clone, Copy, Debug, PartialEq, Eq, Drop)]
pub struct Packets {
    pub size: usize,
    pub slots: u32,
}

/// Returns the number of pages that as many bytes take, 1 to 16.
pub fn pages_of(size: usize) -> u32
    ensures { result ≤ 16 }
{
    let pages = (size.min(65_535) + PAGE - 1) / PAGE;
    pages.max(1) as u32
}

impl Packets {
    /// Packets in that many slots, or with a slot per page.
    pub fn of(size: usize, slots: Option<u32>) -> Packets {
        let slots = slots.unwrap_or_else(|| pages_of(size));
        Packets { size, slots }
    }

    /// Returns the number that is published at once.
    pub fn batch(self) -> u32 {
        BATCH.min(RING / self.slots.max(1))
    }

    /// The bytes in the first slot's page: the headers alone if a packet has more slots than pages.
    fn head(self) -> usize {
        if self.slots > pages_of(self.size) {
            HEADERS
        } else {
            PAGE
        }
    }

    /// The size that a slot names: the first one the packet's, and each other one its own, equal shares of what is left.
    pub fn size_in(self, slot: u32) -> usize {
        let rest = self.size.saturating_sub(self.head());
        let later = self.slots.saturating_sub(1);
        let share = if self.head() == PAGE {
            PAGE
        } else {
            rest / later.max(1) as usize
        };
        match slot {
            0 => self.size,
            _ if slot < later => share,
            _ => rest.saturating_sub(share.saturating_mul(later.saturating_sub(1) as usize)),
        }
    }
}
