//! A box that C holds.
ghost use Rattle.std.specs.Prelude.{◌≡◌, ◌↔◌, Option, None, Some, IfErr, IfOk, IsTrue, IsSome, option_map};
ghost use Rattle.xen_host.specs.declared.sharing.SharedCounters.{SharedCounters};
ghost use Rattle.xdp_host.specs.Shared.{shared_number};
ghost use Rattle.xdp_host.specs.CountersHandle.{handle_owns, held_coded};

use crate::raw_box::RawBox;
use crate::shared_fault::shared_number;
use std::alloc::Global;
use std::marker::Model;
use std::mem;
use std::ptr::null_mut;
use xen_host::{SharedCounters, SharedFault};

/// The address of a box, or of nothing.
#[repr(C)]
#[derive(Drop)]
pub struct Slot {
    at: *mut u8,
    alloc: Global,
    pub ghost held: { Option SharedCounters } by { held_coded },
}

impl Model for Slot {
    ghost also_owns = { λ p. handle_owns p.alloc p.at p.held };
}

impl Slot {
    ghost use Rattle.std.specs.Borrow.{sem};
    ghost use Rattle.xdp_host.specs.CountersLoan.{LendsSlot};

    fn empty(alloc: Global) -> Slot
        ensures { result.held ≡ None }
    {
        Slot {
            at: null_mut(),
            alloc,
        }
    }

    fn of_parts(parts: RawBox<SharedCounters, Global>) -> Slot
        ensures { result.held ≡ Some parts.value }
    {
        let RawBox { ptr, alloc } = parts;
        Slot {
            at: ptr as *mut u8,
            alloc,
        }
    }

    /// Returns what the box holds, where it lies.
    fn lend(&mut self) -> &mut SharedCounters
        requires { IsSome self.old.held }
        ensures* writes_back { sem 𝓛 (LendsSlot self.entry result) }
        ensures value { self.old.held ≡ Some result.now }
    {
        unsafe { &mut *(self.at as *mut SharedCounters) }
    }

    fn into_parts(self) -> RawBox<SharedCounters, Global>
        requires { IsSome self.held }
        ensures { Some result.value ≡ self.held }
    {
        let Slot { at, alloc } = self;
        RawBox {
            ptr: at as *mut SharedCounters,
            alloc,
        }
    }
}

unsafe impl Send for Slot {}

/// Shared counters, or none, as C holds them. C makes one of zero bytes, which holds none, and changes nothing of it.
#[repr(C)]
pub struct XdpCounters {
    slot: Slot,
    live: bool,
    ghost agrees: { IsTrue live ↔ IsSome slot.held },
}

impl XdpCounters {
    ghost use Rattle.std.specs.Borrow.{sem};
    ghost use Rattle.xdp_host.specs.CountersLoan.{LendsHeld};

    /// None.
    fn none(alloc: Global) -> XdpCounters
        ensures { result.slot.held ≡ None }
    {
        XdpCounters {
            slot: Slot::empty(alloc),
            live: false,
        }
    }

    /// Counters in a box.
    fn of(held: Box<SharedCounters>) -> XdpCounters
        ensures { result.slot.held ≡ Some held.value }
    {
        XdpCounters {
            slot: Slot::of_parts(RawBox::of(held)),
            live: true,
        }
    }

    /// Returns what the box holds, where it lies, if there is one.
    pub fn held_mut(&mut self) -> Option<&mut SharedCounters>
        ensures* writes_back { sem 𝓛 (LendsHeld self.entry result) }
        ensures value { option_map (λ r. r.now) result ≡ self.old.slot.held }
    {
        if self.live {
            Some(self.slot.lend())
        } else {
            None
        }
    }

    /// Takes the box out, if there is one.
    fn into_box(self) -> Option<Box<SharedCounters>>
        ensures { option_map (λ b. b.value) result ≡ self.slot.held }
    {
        let XdpCounters { slot, live } = self;
        if live {
            Some(slot.into_parts().into_box())
        } else {
            None
        }
    }

    /// Takes the box out, if there is one. None is left.
    pub fn take(&mut self, alloc: Global) -> Option<Box<SharedCounters>>
        ensures gone { option_map (λ b. b.value) result ≡ self.old.slot.held }
        ensures none { self.new.slot.held ≡ None }
    {
        mem::replace(self, XdpCounters::none(alloc)).into_box()
    }

    /// Puts a box in place of what was there, which is dropped.
    pub fn put(&mut self, held: Box<SharedCounters>)
        ensures { self.new.slot.held ≡ Some held.value }
    {
        *self = XdpCounters::of(held);
    }

    /// Puts what was made in place of what was there, and gives the answer. If there is none, what was there stays.
    pub fn set(&mut self, made: Result<Box<SharedCounters>, SharedFault>) -> u32
        ensures ok { IfOk made (λ b. (self.new.slot.held ≡ Some b.value) × (result ≡ 0)) }
        ensures err { IfErr made (λ f. (self.new.slot.held ≡ self.old.slot.held) × (result ≡ shared_number f)) }
    {
        match made {
            Ok(counters) => {
                self.put(counters);
                0
            }
            Err(fault) => shared_number(fault),
        }
    }
}

impl Drop for XdpCounters {
    fn drop(self) {
        drop(self.into_box());
    }
}

fn assert_send<T: Send>() {}

/// Shared counters, and a handle of them, may be handed to another thread, or this call isn't proved.
pub fn counters_cross_threads() {
    assert_send::<XdpCounters>();
    assert_send::<SharedCounters>()
}
