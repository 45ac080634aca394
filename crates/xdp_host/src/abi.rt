//! What crosses to C. `include/laxonje.h` has these structs in the same order.
ghost use Rattle.std.specs.Prelude.{◌≡◌, min};
ghost use Rattle.xdp_host.specs.Objects.{object_verdict};
ghost use Rattle.xdp_host.specs.Ran.{action_number, nothing, run_of};
ghost use Rattle.xdp_host.specs.Relisted.{relist_verdict};
ghost use Rattle.xdp_host.specs.Verdict.{accepting, verdict_of};

use crate::fault::Fault;
use crate::object_fault::ObjectFault;
use bpf_vm::Action;
use xdp_program::{RelistFault, Run};

/// The size of a map.
#[repr(C)]
#[derive(Clone, Copy, Drop)]
pub struct XdpMap {
    pub entries: u32,
    pub counters: u32,
}

/// The verdict on a program or on its lists: the header says what the numbers mean. None is made but of a fault, or of a program's
/// number of instructions.
#[repr(C)]
#[derive(Clone, Copy, Drop)]
pub struct XdpVerdict {
    kind: u32,
    cause: u32,
    at: u32,
}

impl XdpVerdict {
    /// Accepted, with the number of instructions.
    pub fn accepting(instructions: u32) -> XdpVerdict
        ensures { result ≡ accepting instructions }
    {
        XdpVerdict {
            kind: 0,
            cause: 0,
            at: instructions,
        }
    }
}

impl From<Fault> for XdpVerdict {
    ghost from_gives = { λ fault v. v ≡ verdict_of fault };

    fn from(fault: Fault) -> XdpVerdict {
        let (kind, cause, at) = match fault {
            Fault::Refused(refusal) => (1, refusal.cause.number(), refusal.pc),
            Fault::Map(number) => (2, 0, number),
            Fault::Text(fault) => (3, fault.number(), 0),
            Fault::Empty => (4, 0, 0),
        };
        XdpVerdict {
            kind,
            cause: u32::from(cause),
            at,
        }
    }
}

impl From<RelistFault> for XdpVerdict {
    ghost from_gives = { λ fault v. v ≡ relist_verdict fault };

    fn from(fault: RelistFault) -> XdpVerdict {
        match fault {
            RelistFault::Text(fault) => XdpVerdict::from(Fault::Text(fault)),
            RelistFault::Other => XdpVerdict {
                kind: 6,
                cause: 0,
                at: 0,
            },
        }
    }
}

/// Returns where a fault is, in the bits that C gets.
fn bounded(place: usize) -> u32
    ensures { result ≡ min place 4294967295 }
{
    u32::try_from(place).unwrap_or(u32::MAX)
}

impl From<ObjectFault> for XdpVerdict {
    ghost from_gives = { λ fault v. v ≡ object_verdict fault };

    fn from(fault: ObjectFault) -> XdpVerdict {
        match fault {
            ObjectFault::Setup(fault) => XdpVerdict {
                kind: 7,
                cause: u32::from(fault.number()),
                at: bounded(fault.place()),
            },
            ObjectFault::Program(fault) => XdpVerdict::from(fault),
        }
    }
}

/// The end of a run. Nothing was run if no instruction was done.
#[repr(C)]
#[derive(Clone, Copy, Drop)]
pub struct XdpRun {
    pub number: u32,
    pub action: u32,
    pub instructions: u32,
}

/// The number of an action, as in Linux's `bpf.h`.
fn number_of(action: Action) -> u32
    ensures { result ≡ action_number action }
{
    match action {
        Action::Aborted => 0,
        Action::Drop => 1,
        Action::Pass => 2,
        Action::Tx => 3,
    }
}

impl XdpRun {
    /// Nothing was run.
    pub fn nothing() -> XdpRun
        ensures { result ≡ nothing }
    {
        XdpRun {
            number: 0,
            action: 0,
            instructions: 0,
        }
    }
}

impl From<Run> for XdpRun {
    ghost from_gives = { λ run r. r ≡ run_of run };

    fn from(run: Run) -> XdpRun {
        XdpRun {
            number: run.number,
            action: number_of(Action::of(run.number)),
            instructions: run.instructions,
        }
    }
}
