//! The test of what a front is made with.

ghost use Rattle.std.specs.Prelude.{◌≡◌, ◌↔◌, IsTrue, length};
ghost use Rattle.xen_buffers.specs.Wired.{AreInTable, IsWired, frames_of, references_of, wiring_in};

use crate::desc::FrontDesc;
use crate::distinct::{are_below, are_distinct};
use crate::wiring::GrantedPage;
use arrayvec::ArrayVec;
use xen_page::Table;

/// Returns whether the reference of each buffer is in the table.
fn are_in_table(table: &Table, buffers: &[GrantedPage]) -> bool
    ensures { IsTrue result ↔ AreInTable table.now buffers.now }
{
    for buffer in buffers {
        if table.place(buffer.gref).is_none() {
            return false;
        }
    }
    true
}

impl FrontDesc<'_> {
    /// All frames that the front uses.
    fn own_frames(&self) -> ArrayVec<u32, 578>
        requires tx { length self.now.tx.now ≡ 256 }
        requires rx { length self.now.rx.now ≡ 256 }
        ensures { result.items ≡ frames_of (wiring_in self.now) }
    {
        let mut frames = ArrayVec::new();
        frames.push(self.tx_frame);
        frames.push(self.rx_frame);
        for frame in self.table.frames() {
            frames.push(*frame);
        }
        for tx in self.tx {
            frames.push(tx.frame);
        }
        for rx in self.rx {
            frames.push(rx.frame);
        }
        frames
    }

    /// The references of all buffers.
    fn references(&self) -> ArrayVec<u32, 512>
        requires tx { length self.now.tx.now ≡ 256 }
        requires rx { length self.now.rx.now ≡ 256 }
        ensures { result.items ≡ references_of (wiring_in self.now) }
    {
        let mut references = ArrayVec::new();
        for tx in self.tx {
            references.push(tx.gref);
        }
        for rx in self.rx {
            references.push(rx.gref);
        }
        references
    }

    /// Returns whether a front may be made with this: there are 256 buffers per ring, each with a reference in the table; each
    /// frame is on the bus; and no frame or reference stands twice.
    pub fn is_wired(&self) -> bool
        ensures { IsTrue result ↔ IsWired (wiring_in self.now) }
    {
        if self.tx.len() != 256 || self.rx.len() != 256 {
            return false;
        }
        if !are_in_table(self.table, self.tx) || !are_in_table(self.table, self.rx) {
            return false;
        }
        let frames = self.own_frames();
        if !are_below(frames.as_slice(), self.frames) || !are_distinct(frames.as_slice()) {
            return false;
        }
        are_distinct(self.references().as_slice())
    }
}
