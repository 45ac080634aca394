//! What fronts of the tests stand on.
ghost use Rattle.std.specs.Prelude.{◌≡◌, IfSome};
ghost use Rattle.xen_front.specs.Fronts.{wiring_of};

use std::alloc::{AllocError, Global};
use xen_front::{ACCEPTS_WHOLE, Accepts, Front, FrontDesc, GrantedPage};
use xen_page::{Owners, Table};
use xen_ring::Port;

/// Frame 0 is the back's, 1 and 2 are the front's table, 17 and 18 its rings, 19 to 274 its tx buffers, 275 to 530 its rx
/// buffers. Reference g grants frame 17 + g.
pub const FRAMES: u32 = 531;

/// The frames of the rings.
pub const TX: u32 = 17;

pub const RX: u32 = 18;

/// The buffers with the references from `first` on.
pub fn buffers(first: u16) -> [GrantedPage; 256] {
    let mut buffers = [GrantedPage { gref: 0, frame: 0 }; 256];
    let mut gref = u32::from(first);
    for buffer in buffers.iter_mut() {
        *buffer = GrantedPage {
            gref,
            frame: gref.saturating_add(17),
        };
        gref = gref.saturating_add(1);
    }
    buffers
}

/// The parts under fronts: their table, in frames 1 and 2, and their buffers.
#[derive(Drop)]
pub struct Bench {
    pub(crate) alloc: Global,
    table: Table,
    tx: [GrantedPage; 256],
    rx: [GrantedPage; 256],
}

impl Bench {
    pub fn make(alloc: Global) -> Result<Bench, AllocError> {
        let owners = Owners::make(alloc, &[1, 1, 1])?;
        let Some(table) = Table::make(&owners, 1, &[1, 2]) else {
            unreachable!()
        };
        Ok(Bench {
            alloc,
            table,
            tx: buffers(2),
            rx: buffers(258),
        })
    }

    /// Returns what a front is made with, whose back is domain 0.
    pub fn desc(&self, start: u32) -> FrontDesc<'_>
        ensures { result.frames ≡ 531 }
    {
        self.desc_of(start, 0)
    }

    fn desc_of(&self, start: u32, back: u16) -> FrontDesc<'_>
        ensures { result.frames ≡ 531 }
    {
        let Some(port) = Port::of(1) else {
            unreachable!()
        };
        FrontDesc {
            frames: FRAMES,
            tx_frame: TX,
            rx_frame: RX,
            table: &self.table,
            tx: &self.tx,
            rx: &self.rx,
            back,
            port,
            start,
        }
    }

    /// A front between activities. None if there is no memory for it.
    pub fn front(&self, start: u32) -> Option<Front<'_>>
        ensures { IfSome result (λ front. (wiring_of front).frames ≡ 531) }
    {
        self.front_accepting(start, ACCEPTS_WHOLE)
    }

    /// A front that accepts so much.
    pub fn front_accepting(&self, start: u32, accepts: Accepts) -> Option<Front<'_>>
        ensures { IfSome result (λ front. (wiring_of front).frames ≡ 531) }
    {
        let desc = self.desc(start);
        if !desc.is_wired() {
            return None;
        }
        Front::make(self.alloc, desc, accepts).ok()
    }

    /// A front whose back is this domain.
    pub fn front_of(&self, back: u16) -> Option<Front<'_>> {
        let desc = self.desc_of(0, back);
        if !desc.is_wired() {
            return None;
        }
        Front::make(self.alloc, desc, ACCEPTS_WHOLE).ok()
    }
}
