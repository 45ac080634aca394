//! A box that C holds.
ghost use Rattle.std.specs.Prelude.{◌≡◌, ◌↔◌, Option, None, Some, IsTrue, IsSome, IfErr, IfOk, option_map};
ghost use Rattle.bpf_verify.specs.Consistent.{instructions};
ghost use Rattle.xdp_host.specs.declared.loaded_program.LoadedProgram.{LoadedProgram};
ghost use Rattle.xdp_host.specs.Answers.{AcceptsUnlessOutOfMemory, IsOutOfMemory};
ghost use Rattle.xdp_host.specs.Handle.{handle_owns, held_coded};
ghost use Rattle.xdp_host.specs.Verdict.{accepting, verdict_of};

use crate::abi::XdpVerdict;
use crate::fault::Fault;
use crate::loaded_program::LoadedProgram;
use crate::raw_box::RawBox;
use std::alloc::Global;
use std::marker::Model;
use std::mem;
use std::ptr::null_mut;

/// The address of a box, or of nothing.
#[repr(C)]
#[derive(Drop)]
pub struct Slot {
    at: *mut u8,
    alloc: Global,
    pub ghost held: { Option LoadedProgram } by { held_coded },
}

impl Model for Slot {
    ghost also_owns = { λ p. handle_owns p.alloc p.at p.held };
}

impl Slot {
    ghost use Rattle.std.specs.Borrow.{sem};
    ghost use Rattle.xdp_host.specs.Loan.{LendsSlot};

    fn empty(alloc: Global) -> Slot
        ensures { result.held ≡ None }
    {
        Slot {
            at: null_mut(),
            alloc,
        }
    }

    fn of_parts(parts: RawBox<LoadedProgram, Global>) -> Slot
        ensures { result.held ≡ Some parts.value }
    {
        let RawBox { ptr, alloc } = parts;
        Slot {
            at: ptr as *mut u8,
            alloc,
        }
    }

    /// Returns what the box holds, where it lies.
    fn lend(&mut self) -> &mut LoadedProgram
        requires { IsSome self.old.held }
        ensures* writes_back { sem 𝓛 (LendsSlot self.entry result) }
        ensures value { self.old.held ≡ Some result.now }
    {
        unsafe { &mut *(self.at as *mut LoadedProgram) }
    }

    fn into_parts(self) -> RawBox<LoadedProgram, Global>
        requires { IsSome self.held }
        ensures { Some result.value ≡ self.held }
    {
        let Slot { at, alloc } = self;
        RawBox {
            ptr: at as *mut LoadedProgram,
            alloc,
        }
    }
}

unsafe impl Send for Slot {}

/// An accepted program, or none, as C holds it. C makes one of zero bytes, which holds none, and changes nothing of it.
#[repr(C)]
pub struct XdpProgram {
    slot: Slot,
    live: bool,
    ghost agrees: { IsTrue live ↔ IsSome slot.held },
}

impl XdpProgram {
    ghost use Rattle.std.specs.Borrow.{sem};
    ghost use Rattle.xdp_host.specs.Loan.{LendsHeld};

    /// No program.
    fn none(alloc: Global) -> XdpProgram
        ensures { result.slot.held ≡ None }
    {
        XdpProgram {
            slot: Slot::empty(alloc),
            live: false,
        }
    }

    /// The program in a box.
    fn of(held: Box<LoadedProgram>) -> XdpProgram
        ensures { result.slot.held ≡ Some held.value }
    {
        XdpProgram {
            slot: Slot::of_parts(RawBox::of(held)),
            live: true,
        }
    }

    /// Returns what the box holds, where it lies, if there is one.
    pub fn held_mut(&mut self) -> Option<&mut LoadedProgram>
        ensures* writes_back { sem 𝓛 (LendsHeld self.entry result) }
        ensures value { option_map (λ r. r.now) result ≡ self.old.slot.held }
    {
        if self.live {
            Some(self.slot.lend())
        } else {
            None
        }
    }

    /// Takes the box out, if there is one.
    fn into_box(self) -> Option<Box<LoadedProgram>>
        ensures { option_map (λ b. b.value) result ≡ self.slot.held }
    {
        let XdpProgram { slot, live } = self;
        if live {
            Some(slot.into_parts().into_box())
        } else {
            None
        }
    }

    /// Takes the box out, if there is one. None is left.
    pub fn take(&mut self, alloc: Global) -> Option<Box<LoadedProgram>>
        ensures gone { option_map (λ b. b.value) result ≡ self.old.slot.held }
        ensures none { self.new.slot.held ≡ None }
    {
        mem::replace(self, XdpProgram::none(alloc)).into_box()
    }

    /// Puts a box in place of what was there, which is dropped.
    pub fn put(&mut self, held: Box<LoadedProgram>)
        ensures { self.new.slot.held ≡ Some held.value }
    {
        *self = XdpProgram::of(held);
    }

    /// Puts what was loaded, or none, in place of what was there, and gives the verdict.
    pub fn set(&mut self, alloc: Global, loaded: Result<Box<LoadedProgram>, Fault>) -> XdpVerdict
        ensures ok { IfOk loaded (λ b. (self.new.slot.held ≡ Some b.value) × (result ≡ accepting (instructions b.value.program.code))) }
        ensures err { IfErr loaded (λ f. (self.new.slot.held ≡ None) × (result ≡ verdict_of f)) }
        ensures out_of_memory { IfErr loaded IsOutOfMemory → AcceptsUnlessOutOfMemory result }
    {
        match loaded {
            Ok(held) => {
                let verdict = held.verdict();
                self.put(held);
                verdict
            }
            Err(fault) => {
                drop(self.take(alloc));
                XdpVerdict::from(fault)
            }
        }
    }
}

impl Drop for XdpProgram {
    fn drop(self) {
        drop(self.into_box());
    }
}

fn assert_send<T: Send>() {}

/// A program, and a handle of one, may be handed to another thread, or this call isn't proved.
pub fn programs_cross_threads() {
    assert_send::<XdpProgram>();
    assert_send::<LoadedProgram>()
}
