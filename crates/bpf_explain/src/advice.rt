//! What to write instead.
ghost use Rattle.std.specs.Prelude.{◌≡◌, option_map};
ghost use Rattle.bpf_note.specs.Parts.{facts};
ghost use Rattle.bpf_explain.specs.Advice.{advice_by, advice_text, argument_advice, cause_advice, counter_advice, key_advice, joined_advice, load_by, lost_advice, map_advice};
ghost use Rattle.bpf_explain.specs.Advice.{pointer_advice, value_advice, context_advice, load_advice, stack_advice};

use crate::access::address_of;
use crate::stack::place_of;
use bpf_insn::{Cause, Insn};
use bpf_note::{MapKey, MapShape, Note, Val};

/// Returns what to write instead of what a cause refuses.
pub(crate) fn cause_advice(cause: Cause) -> &'static str
    ensures { result.now ≡ cause_advice cause }
{
    match cause {
        Cause::Memory => "the same program, with more memory: memory ran out",
        Cause::Length => "1 to 4096 slots of eight bytes",
        Cause::Opcode => "an instruction's opcode, with each field as its form wants it",
        Cause::Register => "a register from r0 to r10",
        Cause::Target => "a jump to a slot of the program that is no second half of a wide load",
        Cause::BackJump =>
            "the loop's body as often as it may run, each time left by a forward jump",
        Cause::End => "exit at the end of each way through the program",
        Cause::Unset =>
            "set the register on each way that leads here; a call leaves r1 to r5 unset",
        Cause::FramePointer => "copy r10 to another register, and change the copy",
        Cause::NoPointer =>
            "only add to an address and subtract from it, in 64 bits: constants, or to a packet's address a number \
             of at most 65535; where more than eight ways meet, keep the offset as a number and add it to data anew",
        Cause::Packet =>
            "compare the address past the last byte with data_end on each way that leads here, after the last addition",
        Cause::Stack => "store these bytes first, within the 512 bytes below r10",
        Cause::Context => "load four bytes of a field: at 0, 4, 8, 12 or 16",
        Cause::MayBeNull =>
            "compare the lookup's result with 0 first; the check frees the copies of that lookup alone",
        Cause::MapAccess =>
            "load or atomically add eight bytes at 8*j of a value, j below its number of counters",
        Cause::Helper => "call 1, the map lookup: it is the one helper",
        Cause::MapNumber => "the number of a map of the settings, or a relocation",
        Cause::Argument => "a wide load of a map in r1, and in r2 the address of a stored key",
        Cause::Unsupported => "other instructions: this profile leaves this one out",
    }
}

/// V9: by the value through which the access goes.
fn pointer_advice(address: Val) -> &'static str
    ensures { result.now ≡ pointer_advice address }
{
    match address {
        Val::PktEnd => "access the packet through data: data_end serves comparisons alone",
        _ => cause_advice(Cause::NoPointer),
    }
}

/// V9, if the register was an address before.
pub(crate) fn lost_advice(address: Val) -> &'static str
    ensures { result.now ≡ lost_advice address }
{
    match address {
        Val::Pkt { .. } =>
            "narrow the number that is added to at most 65535, in 64 bits, and compare the sum with data_end",
        Val::Value { .. } => "make the number the key, or choose among constant places by if",
        Val::Stack { .. } => "choose among constant places by if",
        _ => "keep a copy of the address",
    }
}

/// V9, if more ways meet than notes keep apart.
#[tactic(auto, unfolding(crate::specs::Advice::joined_advice))]
pub(crate) fn joined_advice() -> &'static str
    ensures { result.now ≡ joined_advice }
{
    "keep the offset as a number and add it to data anew"
}

/// V14, at a load of a value: by whether a load may take a part of a counter.
fn load_by(parts: bool) -> &'static str
    ensures { result.now ≡ load_by parts }
{
    if parts {
        "load 1, 2, 4 or 8 bytes that lie within one counter of the value"
    } else {
        "load eight bytes, unsigned, at 8*j of the value, j below its number of counters"
    }
}

fn counter_advice(shape: Option<&MapShape>) -> &'static str
    ensures { result.now ≡ counter_advice (option_map (λ s. s.now) shape.entry) }
{
    match shape {
        None => load_by(false),
        Some(shape) => load_by(shape.has_parts()),
    }
}

/// V14: by the instruction and the value through which it goes.
fn map_advice(shapes: &[MapShape], insn: Insn, address: Val) -> &'static str
    ensures { result.now ≡ map_advice shapes.now insn address }
{
    match (insn, address) {
        (_, Val::Map { .. }) => "look a key up first: the reference to a map is no address",
        (Insn::AddCounter { .. }, Val::Value { .. }) =>
            "add at 8*j of the value, j below its number of counters",
        (Insn::AddCounter { .. }, _) =>
            "add atomically to a map's counter alone; elsewhere load, add and store",
        (Insn::St { .. } | Insn::Stx { .. }, _) =>
            "add to the counter in one step, as __sync_fetch_and_add: a store loses what another queue counts",
        (_, Val::Value { m }) => counter_advice(shapes.get(m as usize)),
        _ => load_by(false),
    }
}

/// V17, if the key isn't there: an array's, and a list's; or if there are none.
fn advice_by(key: MapKey) -> &'static str
    ensures { result.now ≡ advice_by key }
{
    match key {
        MapKey::Index =>
            "set all four bytes of the key that r2 points to, within the stack: an unsigned int",
        MapKey::Listed(_) =>
            "set all bytes of the key that r2 points to, within the stack: as many as each key of the map's list has",
        MapKey::Constants(_) => "read constants at their address: a map of constants has no keys",
    }
}

fn key_advice(shape: Option<&MapShape>) -> &'static str
    ensures { result.now ≡ key_advice (option_map (λ s. s.now) shape.entry) }
{
    match shape {
        None => advice_by(MapKey::Index),
        Some(shape) => advice_by(shape.key()),
    }
}

/// V17: by the arguments.
fn argument_advice(shapes: &[MapShape], map: Val, key: Val) -> &'static str
    ensures { result.now ≡ argument_advice shapes.now map key }
{
    match (map, key) {
        (Val::Map { m }, Val::Stack { .. }) => key_advice(shapes.get(m as usize)),
        (Val::Map { .. }, _) => "the key on the stack, and its address in r2",
        _ => "a wide load of a map in r1",
    }
}

/// V11 of a load: it lies outside the stack, or its bytes aren't set.
fn load_advice(place: Option<u32>) -> &'static str
    ensures { result.now ≡ load_advice place }
{
    match place {
        None => "load within the 512 bytes below r10: from r10-512 to r10-1",
        Some(_) => cause_advice(Cause::Stack),
    }
}

/// V11: a store lies outside the stack; a load may also be of bytes that aren't set.
fn stack_advice(insn: Insn, note: &Note) -> &'static str
    ensures { result.now ≡ stack_advice insn (facts note.now) }
{
    match insn {
        Insn::St { .. } | Insn::Stx { .. } =>
            "store within the 512 bytes below r10: from r10-512 to r10-1",
        _ => load_advice(place_of(note, insn)),
    }
}

/// V12: a store to the context, or a load.
fn context_advice(insn: Insn) -> &'static str
    ensures { result.now ≡ context_advice insn }
{
    match insn {
        Insn::St { .. } | Insn::Stx { .. } =>
            "store to the packet or the stack: the context is only read",
        _ => cause_advice(Cause::Context),
    }
}

/// By the cause, for V11 and V12 by the instruction too, and for V9, V11, V14 and V17 by the values that the instruction finds.
fn value_advice(shapes: &[MapShape], cause: Cause, insn: Insn, note: &Note) -> &'static str
    ensures { result.now ≡ value_advice shapes.now cause insn (facts note.now) }
{
    match cause {
        Cause::NoPointer => pointer_advice(address_of(note, insn)),
        Cause::Stack => stack_advice(insn, note),
        Cause::Context => context_advice(insn),
        Cause::MapAccess => map_advice(shapes, insn, address_of(note, insn)),
        Cause::Argument => argument_advice(shapes, note.register(1), note.register(2)),
        _ => cause_advice(cause),
    }
}

/// Returns what to write instead, whether or not the instruction and what is known there are at hand.
pub fn advice_for(
    shapes: &[MapShape],
    cause: Cause,
    insn: Option<Insn>,
    note: Option<&Note>,
) -> &'static str
    ensures { result.now ≡ advice_text shapes.now cause insn (option_map (λ n. facts n.now) note.entry) }
{
    match (insn, note) {
        (Some(insn), Some(note)) => value_advice(shapes, cause, insn, note),
        _ => cause_advice(cause),
    }
}
