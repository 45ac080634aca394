//! What is known of a state before an instruction.
ghost use Rattle.std.specs.Prelude.{◌≡◌, ◌<◌, ◌≤◌, ◌↔◌, ℕ, IsTrue, IfOk, OnOk, OnErr, slice_index_or};
ghost use Rattle.bpf_note.specs.Facts.{with_reg, with_kept, with_byte, with_top, with_safe, with_id, with_each, resolved};
ghost use Rattle.bpf_note.specs.Facts.{entry, entry_reg};
ghost use Rattle.bpf_note.specs.Parts.{facts, no_bytes};

use crate::bound::Bound;
use crate::replacement::Replacement;
use crate::shared::SharedBounds;
use crate::slot::Slot;
use crate::slots::{
    are_equal, copy_slots, is_same_value, replaced_registers, replaced_slots, slot_with_byte,
};
use crate::val::Val;
use std::alloc::{AllocError, Global};
use std::marker::Model;

/// All that is known of a state before an instruction: a value for each register, which bytes of the stack are set and which slots
/// of eight bytes keep a value, and each id's greatest base in the packet and its safe bound. Two notes are equal if they say the
/// same.
#[derive(Drop)]
pub struct Note {
    pub(crate) regs: [Val; 11],
    pub(crate) slots: [Slot; 64],
    /// No byte of the slots below this one is set, so they needn't be gone through.
    pub(crate) floor: usize,
    pub(crate) bounds: SharedBounds,
}

impl Model for Note {
    ghost use Rattle.bpf_note.specs.Parts.{Noted, IsBlankBelow, IsNormal};

    ghost Value = { Noted };

    ghost view = { λ n. record { regs = n.regs; slots = n.slots; bounds = n.bounds } };

    ghost invariant = { λ n. IsNormal n.bounds × IsBlankBelow n.floor n.slots };
}

impl Note {
    /// Returns what a register holds; nothing past the last one.
    #[tactic(auto, unfolding(crate::specs::Parts::facts))]
    pub fn register(&self, number: u8) -> Val
        ensures value { result ≡ (facts self.now).reg number }
        ensures past { 11 ≤ number → result ≡ Val.Unset }
    {
        match self.regs.get(usize::from(number)) {
            Some(value) => *value,
            None => Val::Unset,
        }
    }

    /// Sets what a register holds.
    #[tactic(auto, unfolding(crate::specs::Parts::facts))]
    pub fn set_register(&mut self, number: u8, value: Val)
        requires { number < 11 }
        ensures { facts self.new ≡ with_reg (facts self.old) number value }
    {
        self.regs[usize::from(number)] = value;
    }

    /// The value that a slot of eight stack bytes keeps, if it keeps one.
    #[tactic(auto, unfolding(crate::specs::Parts::facts))]
    pub fn kept(&self, slot: u8) -> Option<Val>
        ensures { result ≡ (facts self.now).kept slot }
    {
        match self.slots.get(usize::from(slot)) {
            Some(Slot::Kept(value)) => Some(*value),
            _ => None,
        }
    }

    /// Returns whether a stack byte is set.
    #[tactic(auto, unfolding(crate::specs::Parts::facts))]
    pub fn is_set(&self, byte: u16) -> bool
        ensures { result ≡ (facts self.now).set byte }
    {
        match self.slots.get(usize::from(byte / 8)) {
            Some(Slot::Kept(_)) => true,
            Some(Slot::Bytes(bytes)) => bytes[usize::from(byte % 8)],
            None => false,
        }
    }

    /// Keeps a value in a slot.
    pub fn keep(&mut self, slot: u8, value: Val)
        requires { slot < 64 }
        ensures { facts self.new ≡ with_kept (facts self.old) slot value }
    {
        let at = usize::from(slot);
        self.slots[at] = Slot::Kept(value);
        self.floor = self.floor.min(at);
    }

    /// Sets a stack byte. Its slot no longer keeps a value.
    pub fn set_byte(&mut self, byte: u16)
        requires { byte < 512 }
        ensures { facts self.new ≡ with_byte (facts self.old) byte }
    {
        let at = usize::from(byte / 8);
        self.slots[at] = slot_with_byte(self.slots[at], byte % 8);
        self.floor = self.floor.min(at);
    }

    /// The greatest base of an id.
    #[tactic(auto, unfolding(crate::specs::Parts::facts))]
    pub fn top(&self, id: u16) -> u32
        ensures { result ≡ (facts self.now).top id }
    {
        self.bounds.top(id)
    }

    /// Returns the number of bytes from an id's base on that lie in the packet, if that is known.
    #[tactic(auto, unfolding(crate::specs::Parts::facts))]
    pub fn safe(&self, id: u16) -> Option<u32>
        ensures { result ≡ (facts self.now).safe id }
    {
        self.bounds.safe(id)
    }

    /// Sets the greatest base of an id. An `Err` changes nothing.
    pub fn set_top(&mut self, id: u16, top: u32) -> Result<(), AllocError>
        ensures ok { OnOk result (facts self.new ≡ with_top (facts self.old) id top) }
        ensures err { OnErr result (self.new ≡ self.old) }
    {
        let safe = self.bounds.safe(id);
        self.bounds.set(Bound { id, top, safe })
    }

    /// Sets the safe bound of an id. An `Err` changes nothing.
    pub fn set_safe(&mut self, id: u16, safe: Option<u32>) -> Result<(), AllocError>
        ensures ok { OnOk result (facts self.new ≡ with_safe (facts self.old) id safe) }
        ensures err { OnErr result (self.new ≡ self.old) }
    {
        let top = self.bounds.top(id);
        self.bounds.set(Bound { id, top, safe })
    }

    /// Makes an id: what carried it before is any number, and nothing but its greatest base is known. An `Err` changes nothing.
    pub fn make_id(&mut self, id: u16, top: u32) -> Result<(), AllocError>
        ensures ok { OnOk result (facts self.new ≡ with_id (facts self.old) id top) }
        ensures err { OnErr result (self.new ≡ self.old) }
    {
        self.bounds.set(Bound {
            id,
            top,
            safe: None,
        })?;
        let change = Replacement::Forget { id };
        self.regs = replaced_registers(&self.regs, change);
        self.slots = replaced_slots(&self.slots, self.floor, change);
        Ok(())
    }

    /// Puts a value in place of each address or 0 that carries the id.
    pub fn resolve(&mut self, id: u16, value: Val)
        ensures { facts self.new ≡ with_each (facts self.old) (resolved id value) }
    {
        let change = Replacement::Resolve { id, known: value };
        self.regs = replaced_registers(&self.regs, change);
        self.slots = replaced_slots(&self.slots, self.floor, change);
    }

    /// Returns what is known before the first instruction. It takes no memory.
    pub fn entry(alloc: Global) -> Note
        ensures { facts result ≡ entry }
    {
        Note {
            regs: entry_registers(),
            slots: no_slots(),
            floor: 64,
            bounds: SharedBounds::none(alloc),
        }
    }

    /// A copy of the note.
    pub fn copy(&self, alloc: Global) -> Result<Note, AllocError>
        ensures { IfOk result (λ n. n ≡ self.now) }
    {
        Ok(Box::into_inner(self.boxed(alloc)?))
    }

    /// A copy of the note, in a box.
    pub fn boxed(&self, alloc: Global) -> Result<Box<Note>, AllocError>
        ensures { IfOk result (λ n. n.value ≡ self.now) }
    {
        let bounds = self.bounds.share()?;
        let note = Note {
            regs: self.regs,
            slots: self.slots,
            floor: self.floor,
            bounds,
        };
        Ok(Box::new(alloc, note)?)
    }

    /// Makes this note the same as another.
    pub(crate) fn become_copy(&mut self, other: &Note) -> Result<(), AllocError>
        ensures { OnOk result (self.new ≡ other.now) }
    {
        let bounds = other.bounds.share()?;
        self.regs = other.regs;
        copy_slots(&mut self.slots, &other.slots, self.floor.min(other.floor));
        self.floor = other.floor;
        self.bounds = bounds;
        Ok(())
    }

    /// Returns whether the two notes are equal: they say the same.
    pub fn same_as(&self, other: &Note) -> bool
        ensures { IsTrue result ↔ (self.now ≡ other.now) }
    {
        if !are_same_registers(&self.regs, &other.regs) || !self.bounds.look_alike(&other.bounds) {
            return false;
        }
        are_equal(&self.slots, &other.slots, self.floor.min(other.floor))
            && self.bounds.same_as(&other.bounds)
    }
}

fn are_same_registers(a: &[Val; 11], b: &[Val; 11]) -> bool
    ensures { IsTrue result ↔ (a.now ≡ b.now) }
{
    for i in 0..11 {
        if !is_same_value(&a[i], &b[i]) {
            return false;
        }
    }
    true
}

fn entry_registers() -> [Val; 11]
    ensures { (k : ℕ) → slice_index_or result k Val.Unset ≡ entry_reg k }
{
    let mut registers = [Val::Unset; 11];
    registers[1] = Val::Ctx;
    registers[10] = Val::Stack { off: 0 };
    registers
}

fn no_slots() -> [Slot; 64]
    ensures { (j : ℕ) → slice_index_or result j no_bytes ≡ no_bytes }
{
    [Slot::Bytes([false; 8]); 64]
}
