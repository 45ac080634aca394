//! Helper calls.
ghost use Rattle.std.specs.Prelude.{◌≡◌, ◌<◌, ◌≤◌, option_map, slice_get};
ghost use Rattle.bpf_insn.specs.declared.insn.Insn.{Insn};
ghost use Rattle.bpf_note.specs.Parts.{facts};
ghost use Rattle.bpf_flow.specs.Call.{is_key, key_bytes, has_keys, is_lookup, looks_up, with_call};
ghost use Rattle.bpf_flow.specs.Effect.{Decides};
ghost use Rattle.bpf_flow.specs.Rule.{after_of};

use crate::access::place_in;
use crate::effect::Effect;
use crate::memory::all_set;
use crate::point::{Point, is_unset};
use bpf_insn::Cause;
use bpf_note::{MapKey, MapShape, Note, Val};

fn is_lookup(helper: i32) -> bool
    ensures { result ≡ is_lookup helper }
{
    helper == 1
}

/// Notes what is known after a lookup in map `m` by the call at slot `id`.
pub(crate) fn call(note: &mut Note, m: u32, id: u16)
    ensures { facts note.new ≡ with_call (facts note.old) m id }
{
    note.set_register(0, Val::MaybeValue { m, id });
    for lost in 1..6 {
        note.set_register(lost, Val::Unset);
    }
}

/// Returns whether a value is the address of `bytes` set bytes of the stack.
fn is_key(note: &Note, bytes: u32, value: Val) -> bool
    requires { bytes ≤ 512 }
    ensures { result ≡ is_key (facts note.now) bytes value }
{
    match value {
        Val::Stack { off } => match place_in(512 + i32::from(off), bytes, 512) {
            None => false,
            Some(place) => all_set(note, place, bytes),
        },
        _ => false,
    }
}

/// Returns the number of bytes of a key of a map.
fn key_bytes(shape: Option<&MapShape>) -> u32
    ensures value { result ≡ key_bytes (option_map (λ s. s.now) shape.entry) }
    ensures few { result ≤ 512 }
{
    match shape {
        None => MapKey::Index.size(),
        Some(shape) => shape.key().size(),
    }
}

/// Returns the number of bytes of a key of map `m`.
fn key_bytes_of(shapes: &[MapShape], m: u32) -> u32
    ensures value { result ≡ key_bytes (slice_get shapes.now m) }
    ensures few { result ≤ 512 }
{
    key_bytes(shapes.get(m as usize))
}

fn is_looked_up(shape: Option<&MapShape>) -> bool
    ensures { result ≡ has_keys (option_map (λ s. s.now) shape.entry) }
{
    match shape {
        None => true,
        Some(shape) => !matches!(shape.key(), MapKey::Constants(_)),
    }
}

/// Returns whether the values of map `m` are looked up by keys.
fn has_keys(shapes: &[MapShape], m: u32) -> bool
    ensures { result ≡ has_keys (slice_get shapes.now m) }
{
    is_looked_up(shapes.get(m as usize))
}

impl Point<'_> {
    /// A lookup in the map that `map` names.
    fn looks_up(&self, map: Val, key: Val) -> Result<Effect, Cause>
        requires { self.now.pc < 4096 }
        ensures gives { Decides result self.now.pc (facts self.now.note.now)
            (looks_up self.now.shapes.now (facts self.now.note.now) self.now.pc map key) }
    {
        match map {
            Val::Map { m } => {
                if !has_keys(self.shapes, m)
                    || !is_key(self.note, key_bytes_of(self.shapes, m), key)
                {
                    return Err(Cause::Argument);
                }
                Ok(Effect::LooksUp { m })
            }
            _ => Err(Cause::Argument),
        }
    }

    pub fn call(&self, helper: i32) -> Result<Effect, Cause>
        requires { self.now.pc < 4096 }
        ensures gives { Decides result self.now.pc (facts self.now.note.now)
            (after_of (Insn.Call helper) self.now.pc (facts self.now.note.now) self.now.shapes.now) }
    {
        if !is_lookup(helper) {
            return Err(Cause::Helper);
        }
        let map = self.note.register(1);
        let key = self.note.register(2);
        if is_unset(map) || is_unset(key) {
            return Err(Cause::Unset);
        }
        self.looks_up(map, key)
    }
}
