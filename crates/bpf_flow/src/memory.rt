//! Loads, stores and adds to counters.
ghost use Rattle.std.specs.Prelude.{◌≡◌, ◌+◌, ◌<◌, ◌≤◌, IfOk, IsTrue, slice_get, option_map};
ghost use Rattle.bpf_insn.specs.Register.{number};
ghost use Rattle.bpf_insn.specs.Size.{size_bytes};
ghost use Rattle.bpf_insn.specs.declared.insn.Insn.{Insn};
ghost use Rattle.bpf_note.specs.Parts.{facts};
ghost use Rattle.bpf_flow.specs.Rule.{after_of};
ghost use Rattle.bpf_flow.specs.Effect.{Allocates, Decides};
ghost use Rattle.bpf_flow.specs.Gives.{IsInside};
ghost use Rattle.bpf_flow.specs.Memory.{is_field, is_counter, all_set, any_of_size, any_loaded, is_slot, stack_value, field_value};
ghost use Rattle.bpf_flow.specs.Memory.{is_data, is_part_of, load_value, loaded_value, with_bytes, with_store, stores, adds_at};

use crate::access::{Access, moved, reach};
use crate::alu::immediate;
use crate::effect::Effect;
use crate::point::{Point, is_frame, is_unset};
use bpf_insn::{Cause, Register, Size};
use bpf_note::{MapShape, Note, PACKET_ID, Val, constants_left};

fn is_field(off: i16) -> bool
    ensures { result ≡ is_field off }
{
    0 <= off && off <= 16 && off % 4 == 0
}

fn is_counter(shape: Option<&MapShape>, off: i16) -> bool
    ensures { result ≡ is_counter (option_map (λ s. s.now) shape.entry) off }
{
    match shape {
        None => false,
        Some(shape) => {
            if off < 0 {
                return false;
            }
            off % 8 == 0 && (off as u32) < 8 * shape.counters()
        }
    }
}

/// Returns whether a value of map `m` has a counter at an offset.
fn has_counter(shapes: &[MapShape], m: u32, off: i16) -> bool
    ensures { result ≡ is_counter (slice_get shapes.now m) off }
{
    is_counter(shapes.get(m as usize), off)
}

fn is_part_of(shape: Option<&MapShape>, off: i16, bytes: u64) -> bool
    requires { bytes ≤ 8 }
    ensures { result ≡ is_part_of (option_map (λ s. s.now) shape.entry) off bytes }
{
    match shape {
        None => false,
        Some(shape) => {
            if off < 0 {
                return false;
            }
            let at = off as u64;
            shape.has_parts()
                && bytes < 8
                && at % 8 + bytes <= 8
                && at < 8 * u64::from(shape.counters())
        }
    }
}

/// Returns whether fewer than eight bytes of a value of map `m` at an offset are a part of a counter.
fn has_part(shapes: &[MapShape], m: u32, off: i16, bytes: u64) -> bool
    requires { bytes ≤ 8 }
    ensures { result ≡ is_part_of (slice_get shapes.now m) off bytes }
{
    is_part_of(shapes.get(m as usize), off, bytes)
}

pub(crate) fn all_set(note: &Note, place: u32, bytes: u32) -> bool
    requires { place + bytes ≤ 512 }
    ensures { result ≡ all_set (facts note.now) place bytes }
{
    for byte in place..place + bytes {
        if !note.is_set(byte as u16) {
            return false;
        }
    }
    true
}

fn any_of_size(size: Size) -> Val
    ensures { result ≡ any_of_size size }
{
    match size {
        Size::Byte => Val::Num { lo: 0, hi: 0xFF },
        Size::Half => Val::Num { lo: 0, hi: 0xFFFF },
        Size::Word => Val::Num {
            lo: 0,
            hi: 0xFFFF_FFFF,
        },
        Size::Double => Val::FULL,
    }
}

fn any_loaded(signed: bool, size: Size) -> Val
    ensures { result ≡ any_loaded signed size }
{
    if signed { Val::FULL } else { any_of_size(size) }
}

fn is_slot(place: u32, size: Size) -> bool
    ensures { result ≡ is_slot place size }
{
    match size {
        Size::Double => place % 8 == 0,
        _ => false,
    }
}

/// Returns what a load from the stack gives.
fn stack_value(note: &Note, place: u32, signed: bool, size: Size) -> Val
    requires { place < 512 }
    ensures { result ≡ stack_value (facts note.now) place signed size }
{
    if signed || !is_slot(place, size) {
        return any_loaded(signed, size);
    }
    match note.kept((place / 8) as u8) {
        None => Val::FULL,
        Some(value) => value,
    }
}

fn field_value(off: i16) -> Val
    requires { IsTrue (is_field off) }
    ensures { result ≡ field_value off }
{
    match off {
        4 => Val::PktEnd,
        12 | 16 => Val::Num {
            lo: 0,
            hi: 0xFFFF_FFFF,
        },
        _ => Val::Pkt {
            id: PACKET_ID,
            off: 0,
        },
    }
}

/// Returns what a load gives.
fn loaded_value(
    note: &Note,
    shapes: &[MapShape],
    signed: bool,
    size: Size,
    access: Access,
) -> Result<Val, Cause>
    requires { IsInside access (size_bytes size) }
    ensures { result ≡ loaded_value (facts note.now) shapes.now signed size access }
{
    match access {
        Access::InPacket => Ok(any_loaded(signed, size)),
        Access::OnStack(place) => {
            if all_set(note, place, size.bytes() as u32) {
                Ok(stack_value(note, place, signed, size))
            } else {
                Err(Cause::Stack)
            }
        }
        Access::InContext(off) => {
            if !signed && size == Size::Word && is_field(off) {
                Ok(field_value(off))
            } else {
                Err(Cause::Context)
            }
        }
        Access::AtValue { m, off } => {
            if !signed && size == Size::Double && has_counter(shapes, m, off) {
                Ok(Val::FULL)
            } else {
                Err(Cause::MapAccess)
            }
        }
    }
}

/// Returns whether the bytes at an offset from a value hold any number: they are constants, whichever number of its range it is, or
/// a part of a counter.
fn is_data(shapes: &[MapShape], value: Val, off: i16, bytes: u64) -> bool
    requires { bytes ≤ 8 }
    ensures { result ≡ is_data shapes.now value off bytes }
{
    match value {
        Val::Num { lo, hi } => {
            let left = constants_left(shapes, moved(lo, off));
            bytes <= left && hi.saturating_sub(lo) <= left - bytes
        }
        Val::Value { m } => has_part(shapes, m, off, bytes),
        _ => false,
    }
}

/// Returns what a load through a value gives.
fn load_value(
    note: &Note,
    shapes: &[MapShape],
    value: Val,
    off: i16,
    signed: bool,
    size: Size,
) -> Result<Val, Cause>
    ensures { result ≡ load_value (facts note.now) shapes.now value off signed size }
{
    if is_data(shapes, value, off, size.bytes() as u64) {
        return Ok(any_loaded(signed, size));
    }
    let access = reach(note, value, off, size)?;
    loaded_value(note, shapes, signed, size, access)
}

/// Bytes of the stack are stored: they are set, and the slots that they touch keep no value.
fn store_bytes(note: &mut Note, place: u32, bytes: u32)
    requires { place + bytes ≤ 512 }
    ensures { facts note.new ≡ with_bytes (facts note.old) place bytes }
{
    for byte in place..place + bytes {
        note.set_byte(byte as u16);
    }
}

/// Notes a store to the stack.
pub(crate) fn store(note: &mut Note, place: u32, size: Size, value: Val)
    requires { place + size_bytes size ≤ 512 }
    ensures { facts note.new ≡ with_store (facts note.old) place size value }
{
    if is_slot(place, size) {
        note.keep((place / 8) as u8, value);
    } else {
        store_bytes(note, place, size.bytes() as u32);
    }
}

/// Returns whether an add to a counter at `off` from a value is allowed.
fn adds_at(shapes: &[MapShape], value: Val, off: i16) -> Result<(), Cause>
    ensures { result ≡ adds_at shapes.now value off }
{
    match value {
        Val::Unset => Err(Cause::Unset),
        Val::Num { .. } | Val::PktEnd => Err(Cause::NoPointer),
        Val::MaybeValue { .. } => Err(Cause::MayBeNull),
        Val::Value { m } if has_counter(shapes, m, off) => Ok(()),
        _ => Err(Cause::MapAccess),
    }
}

impl Point<'_> {
    pub fn ldx(
        &self,
        size: Size,
        signed: bool,
        dst: Register,
        src: Register,
        off: i16,
    ) -> Result<Effect, Cause>
        requires { self.now.pc < 4096 }
        ensures gives { Decides result self.now.pc (facts self.now.note.now)
            (after_of (Insn.Ldx size signed dst src off) self.now.pc (facts self.now.note.now) self.now.shapes.now) }
        ensures spare { IfOk result (λ e. Allocates e → ⊥) }
    {
        let pointer = self.note.register(src.number());
        if is_unset(pointer) {
            return Err(Cause::Unset);
        }
        if is_frame(dst) {
            return Err(Cause::FramePointer);
        }
        let value = load_value(self.note, self.shapes, pointer, off, signed, size)?;
        self.sets(self.pc + 1, dst, value)
    }

    fn stores(&self, size: Size, value: Val, access: Access) -> Result<Effect, Cause>
        requires small { self.now.pc < 4096 }
        requires inside { IsInside access (size_bytes size) }
        ensures gives { Decides result self.now.pc (facts self.now.note.now)
            (stores (facts self.now.note.now) (self.now.pc + 1) size value access) }
        ensures spare { IfOk result (λ e. Allocates e → ⊥) }
    {
        match access {
            Access::InPacket => self.goes_to(self.pc + 1),
            Access::OnStack(place) => Ok(Effect::Stores { place, size, value }),
            Access::InContext(_) => Err(Cause::Context),
            Access::AtValue { .. } => Err(Cause::MapAccess),
        }
    }

    pub fn st(&self, size: Size, dst: Register, off: i16, imm: i32) -> Result<Effect, Cause>
        requires { self.now.pc < 4096 }
        ensures gives { Decides result self.now.pc (facts self.now.note.now)
            (after_of (Insn.St size dst off imm) self.now.pc (facts self.now.note.now) self.now.shapes.now) }
        ensures spare { IfOk result (λ e. Allocates e → ⊥) }
    {
        let pointer = self.note.register(dst.number());
        if is_unset(pointer) {
            return Err(Cause::Unset);
        }
        let access = reach(self.note, pointer, off, size)?;
        self.stores(size, immediate(imm), access)
    }

    pub fn stx(&self, size: Size, dst: Register, src: Register, off: i16) -> Result<Effect, Cause>
        requires { self.now.pc < 4096 }
        ensures gives { Decides result self.now.pc (facts self.now.note.now)
            (after_of (Insn.Stx size dst src off) self.now.pc (facts self.now.note.now) self.now.shapes.now) }
        ensures spare { IfOk result (λ e. Allocates e → ⊥) }
    {
        let value = self.note.register(src.number());
        let pointer = self.note.register(dst.number());
        if is_unset(value) || is_unset(pointer) {
            return Err(Cause::Unset);
        }
        let access = reach(self.note, pointer, off, size)?;
        self.stores(size, value, access)
    }

    pub fn add_counter(
        &self,
        fetch: bool,
        dst: Register,
        src: Register,
        off: i16,
    ) -> Result<Effect, Cause>
        requires { self.now.pc < 4096 }
        ensures gives { Decides result self.now.pc (facts self.now.note.now)
            (after_of (Insn.AddCounter fetch dst src off) self.now.pc (facts self.now.note.now) self.now.shapes.now) }
        ensures spare { IfOk result (λ e. Allocates e → ⊥) }
    {
        let pointer = self.note.register(dst.number());
        if is_unset(self.note.register(src.number())) || is_unset(pointer) {
            return Err(Cause::Unset);
        }
        if fetch && is_frame(src) {
            return Err(Cause::FramePointer);
        }
        adds_at(self.shapes, pointer, off)?;
        if fetch {
            self.sets(self.pc + 1, src, Val::FULL)
        } else {
            self.goes_to(self.pc + 1)
        }
    }
}
