//! What became of each packet of a turn of several, as C sees it.

ghost use Rattle.std.specs.Prelude.{◌≡◌, ◌≤◌, ℕ, false};
ghost use Rattle.xen_host.specs.Offload.{Offload as OffloadView};
ghost use Rattle.xen_host.specs.Results.{has_run, result_of};

use crate::offload::Offload;
use xen_turns::Kind;

/// What became of a packet, as C sees it: `include/laxonje.h` has these fields in the same order.
#[repr(C)]
#[derive(Clone, Copy, Debug, PartialEq, Eq, Drop)]
pub struct TurnResult {
    pub outcome: u32,
    pub ops: u32,
    pub number: u32,
    pub slots: u32,
    pub cause: u32,
    pub length: u32,
    /// The flags of its first slot.
    pub flags: u32,
    /// The type of the segments into which it is to be cut, and the most bytes of payload in each.
    pub segment_type: u16,
    pub segment_size: u16,
}

/// That of no packet.
const NO_RESULT: TurnResult = TurnResult {
    outcome: 0,
    ops: 0,
    number: 0,
    slots: 0,
    cause: 0,
    length: 0,
    flags: 0,
    segment_type: 0,
    segment_size: 0,
};

impl TurnResult {
    /// That of a packet of `length` bytes, of which its guest leaves `offload` undone.
    #[inline(always)]
    pub(crate) fn set(&mut self, kind: &Kind, length: usize, offload: &Offload)
        requires { length ≤ 65535 }
        ensures { self.new ≡ result_of kind.now length offload.now }
    {
        match *kind {
            Kind::Ran { number, ops, slots } => {
                *self = TurnResult {
                    outcome: 1,
                    ops,
                    number,
                    slots,
                    cause: 0,
                    length: length as u32,
                    flags: u32::from(offload.flags().bits()),
                    segment_type: 0,
                    segment_size: 0,
                };
                if offload.segments().is_some() {
                    self.segment_type = offload.segment_type();
                    self.segment_size = offload.segment_size();
                }
            }
            _ => self.set_unrun(kind),
        }
    }

    /// That of a packet on which no program ran.
    #[inline(never)]
    fn set_unrun(&mut self, kind: &Kind)
        requires { has_run kind.now ≡ false }
        ensures { (length : ℕ) (o : OffloadView) → self.new ≡ result_of kind.now length o }
    {
        *self = match *kind {
            Kind::Idle | Kind::Ran { .. } => NO_RESULT,
            Kind::Refused { cause, ops, slots } => TurnResult {
                outcome: 2,
                ops,
                slots,
                cause: u32::from(cause.number()),
                ..NO_RESULT
            },
            Kind::Halted { cause } => TurnResult {
                outcome: 3,
                cause: u32::from(cause.number()),
                ..NO_RESULT
            },
        };
    }
}
