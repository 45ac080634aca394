//! Which linear forms are addresses in the packet after a step: by a room, by the note, or by a jump that compares them with the end.
ghost use Rattle.std.specs.Prelude.{◌≡◌, ◌<◌, ℕ, ℤ, Option, Some, true, IsTrue, IfSome};
ghost use Rattle.bpf_insn.specs.declared.insn.Insn.TheVariants as insns;
ghost use Rattle.bpf_note.specs.Parts.{facts};
ghost use Rattle.bpf_same.specs.LinearForms.{room_of};
ghost use Rattle.bpf_same.specs.Stepped.{IsAddressAfter, IsBelowEnd, IsComparedAddress, IsDistance, IsOrder, IsOrderOf, PreservesAddress, PreservesRoom};
ghost use Rattle.bpf_same.specs.declared.room.Room.{Room};

use crate::linear_form::{LinearForm, REGISTERS};
use crate::range::{MOST_BYTES, least_length};
use crate::relation::Relation;
use crate::step::{PACKET_START, Step, alters};
use bpf_insn::{Condition, Insn, Operand, Register};
use bpf_note::Val;

/// A register that is at most another one, even with as much added.
#[derive(Clone, Copy, Drop)]
struct Order {
    lesser: u8,
    greater: u8,
    by: u64,
}

/// A register that is at most the packet's end, even with as much added, and how far from the packet's start it at least is.
#[derive(Clone, Copy, Drop)]
pub(crate) struct ComparedAddress {
    pub(crate) register: u8,
    pub(crate) distance: u64,
    pub(crate) by: u64,
}

/// The registers that a jump compares that is taken where a condition holds.
fn order_by(cond: Condition, dst: u8, src: u8) -> Option<Order>
    requires dst { dst < 11 }
    requires src { src < 11 }
    ensures first { IfSome result (λ o. o.lesser < 11) }
    ensures second { IfSome result (λ o. o.greater < 11) }
    ensures order { IfSome result (λ o. IsOrder cond dst src o.lesser o.greater o.by) }
{
    let (lesser, greater, by) = match cond {
        Condition::LessOrEqual => (dst, src, 0),
        Condition::Less => (dst, src, 1),
        Condition::GreaterOrEqual => (src, dst, 0),
        Condition::Greater => (src, dst, 1),
        _ => return None,
    };
    Some(Order {
        lesser,
        greater,
        by,
    })
}

/// The same of a comparison of 64 bits with an operand.
fn order_between(cond: Condition, dst: Register, src: Operand) -> Option<Order>
    ensures first { IfSome result (λ o. o.lesser < 11) }
    ensures second { IfSome result (λ o. o.greater < 11) }
    ensures order { (off : ℤ) → IfSome result (λ o. IsOrderOf (insns.Jump cond true dst src off) o.lesser o.greater o.by) }
{
    match src {
        Operand::Register(register) => {
            let first = dst.number();
            let second = register.number();
            order_by(cond, first, second)
        }
        Operand::Immediate(_) => None,
    }
}

/// Returns what a jump that is taken says of two registers.
fn order_of(insn: Insn) -> Option<Order>
    ensures first { IfSome result (λ o. o.lesser < 11) }
    ensures second { IfSome result (λ o. o.greater < 11) }
    ensures order { IfSome result (λ o. IsOrderOf insn o.lesser o.greater o.by) }
{
    match insn {
        Insn::Jump {
            cond,
            wide,
            dst,
            src,
            ..
        } => {
            if wide {
                order_between(cond, dst, src)
            } else {
                None
            }
        }
        _ => None,
    }
}

impl Step<'_> {
    /// Returns whether a form before the step is an address in the packet by the note after it, which says where a register points.
    fn is_noted_by(&self, form: LinearForm, register: u8) -> bool
        requires { register < 11 }
        ensures { IsTrue result → IsAddressAfter self.now.insn self.now.stutters self.now.low (facts self.now.after.now) self.now.before.now form }
    {
        let Val::Pkt { id, off } = self.after.register(register) else {
            return false;
        };
        let Some(safe) = self.after.safe(id) else {
            return false;
        };
        let Some(noted) = self.new_after(register) else {
            return false;
        };
        if noted.terms != form.terms {
            return false;
        }
        if safe > MOST_BYTES {
            return false;
        }
        let by = form.constant.wrapping_sub(noted.constant);
        let offset = u64::from(off);
        let bound = u64::from(safe);
        by.wrapping_add(offset) <= bound
    }

    /// Returns whether a number is an address in the packet by its length in the note after the step.
    fn is_in_packet(&self, form: LinearForm) -> bool
        ensures { IsTrue result → IsAddressAfter self.now.insn self.now.stutters self.now.low (facts self.now.after.now) self.now.before.now form }
    {
        if form.terms != 0 {
            return false;
        }
        form.constant.wrapping_sub(PACKET_START) <= u64::from(least_length(self.after))
    }

    /// Returns whether a form before the step is an address in the packet by the note after it.
    fn is_noted(&self, form: LinearForm) -> bool
        ensures { IsTrue result → IsAddressAfter self.now.insn self.now.stutters self.now.low (facts self.now.after.now) self.now.before.now form }
    {
        for register in 0..REGISTERS {
            if self.is_noted_by(form, register) {
                return true;
            }
        }
        self.is_in_packet(form)
    }

    /// Returns whether a register that the step leaves is at most the packet's end.
    fn is_below_end(&self, register: u8) -> bool
        requires { register < 11 }
        ensures { IsTrue result → IsBelowEnd self.now.insn self.now.stutters self.now.low (facts self.now.after.now) self.now.before.now register }
    {
        if self.before.has_room_of(self.before.new_form(register)) {
            return true;
        }
        !alters(self.insn, register) && matches!(self.after.register(register), Val::PktEnd)
    }

    /// Returns how far from the packet's start a register at least is before the step.
    fn least_distance(&self, register: u8) -> Option<u64>
        requires { register < 11 }
        ensures { IfSome result (IsDistance self.now.insn self.now.stutters self.now.low (facts self.now.after.now) self.now.before.now register) }
    {
        let Some(range) = self.range_before(self.before.new_form(register)) else {
            return None;
        };
        if range.low < PACKET_START {
            return None;
        }
        Some(range.low - PACKET_START)
    }

    /// The register that a jump shows to be at most the packet's end, and how far from the packet's start it at least is.
    pub(crate) fn compared(&self) -> Option<ComparedAddress>
        ensures small { IfSome result (λ a. a.register < 11) }
        ensures address { IfSome result (λ a. IsComparedAddress self.now.insn self.now.stutters self.now.low (facts self.now.after.now) self.now.before.now a.register a.distance a.by) }
    {
        let Some(order) = order_of(self.insn) else {
            return None;
        };
        if !self.is_below_end(order.greater) {
            return None;
        }
        let Some(distance) = self.least_distance(order.lesser) else {
            return None;
        };
        Some(ComparedAddress {
            register: order.lesser,
            distance,
            by: order.by,
        })
    }

    /// Returns whether a form before the step is an address in the packet by a jump that compares it.
    fn is_compared(&self, form: LinearForm) -> bool
        ensures { IsTrue result → IsAddressAfter self.now.insn self.now.stutters self.now.low (facts self.now.after.now) self.now.before.now form }
    {
        let Some(address) = self.compared() else {
            return false;
        };
        let there = self.before.new_form(address.register);
        if there.terms != form.terms {
            return false;
        }
        let end = there.constant.wrapping_add(address.by);
        end.wrapping_sub(form.constant) <= address.distance
    }

    /// Returns whether a number is an address in the packet by a jump that compares one that is at least as far.
    fn is_reached(&self, form: LinearForm) -> bool
        ensures { IsTrue result → IsAddressAfter self.now.insn self.now.stutters self.now.low (facts self.now.after.now) self.now.before.now form }
    {
        let Some(address) = self.compared() else {
            return false;
        };
        if form.terms != 0 {
            return false;
        }
        form.constant.wrapping_sub(PACKET_START) <= address.distance
    }

    /// Returns whether a form before the step lies in a room before it.
    fn is_in_room(&self, form: LinearForm) -> bool
        ensures { IsTrue result → IsAddressAfter self.now.insn self.now.stutters self.now.low (facts self.now.after.now) self.now.before.now form }
    {
        self.before.has_room_of(form)
    }

    /// Returns whether a linear form is an address in the packet after the step.
    fn preserves_address(&self, form: LinearForm) -> bool
        ensures { IsTrue result → PreservesAddress self.now.insn self.now.stutters self.now.low (facts self.now.after.now) self.now.before.now form }
    {
        let Some(here) = self.pulled_back(form) else {
            return false;
        };
        if self.is_in_room(here) {
            return true;
        }
        if self.is_noted(here) {
            return true;
        }
        if self.is_compared(here) {
            return true;
        }
        self.is_reached(here)
    }

    /// Returns whether the next relation's room is one after the step.
    pub(crate) fn preserves_room(&self, next: &Relation, number: u8) -> bool
        ensures { IsTrue result → (room : Room) → room_of next.now number ≡ Some room → PreservesRoom self.now.insn self.now.stutters self.now.low (facts self.now.after.now) self.now.before.now room }
    {
        match next.room(number) {
            Some(room) => {
                self.preserves_address(room.first_form())
                    && self.preserves_address(room.last_form())
            }
            None => true,
        }
    }
}
