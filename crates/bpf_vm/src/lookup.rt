//! Lookups in maps, and where their values lie.
ghost use Rattle.std.specs.Prelude.{◌≡◌, ◌==◌, ◌+◌, ◌*◌, ◌/◌, ◌%◌, ◌<◌, ◌≤◌, ℕ, List, Some, None, length, slice_get, nat_lt, if◌then◌else◌};
ghost use Rattle.bpf_lists.specs.Find.{find_in, found_in, listed_in};
ghost use Rattle.bpf_lists.specs.declared.list.MapList.TheVariants.{Rows};
ghost use Rattle.bpf_note.specs.Bytes.{bytes_at, number_of};
ghost use Rattle.bpf_note.specs.Keys.{key_size};
ghost use Rattle.bpf_note.specs.Regions.{load_place, map_near, map_offset, InCounter};
ghost use Rattle.bpf_note.specs.Shape.{Shape, most_maps};
ghost use Rattle.bpf_flow.specs.Step.{looked_up, row_of, value_or_null};
ghost use Rattle.bpf_vm.specs.Running.{machine_state, Advances, ComesTo, IsInCounter};

use crate::bytes::number_at;
use crate::machine::{
    LARGE_STRIDE, MOST_SMALL, Machine, REFERENCES_START, SMALL_STRIDE, STACK_START, VALUES_START,
};
use bpf_insn::{Register, Size};
use bpf_lists::{KeyedRows, MapList};
use bpf_note::{MapKey, MapShape};

/// The map that alone may have values this many bytes past the first of all.
#[inline(always)]
fn map_near(at: u64) -> u64
    ensures { result ≡ map_near at }
{
    if at < LARGE_STRIDE {
        at / SMALL_STRIDE
    } else {
        at / LARGE_STRIDE - 1
    }
}

/// Returns how far past the first value of its map a counter lies, which is this many bytes past the first of all. The address
/// alone says it, so that the map's shape isn't waited for.
#[inline(always)]
fn past_map(at: u64) -> u64
    ensures { result ≡ (if nat_lt at 0x400000 then at % 0x10000 else at % 0x400000) }
{
    if at < LARGE_STRIDE {
        at % SMALL_STRIDE
    } else {
        at % LARGE_STRIDE
    }
}

/// Returns how far past the first of all values those of map `m` begin.
#[inline(always)]
fn map_offset(shape: &MapShape, m: u64) -> u64
    requires { m < most_maps }
    ensures value { result ≡ map_offset shape.now m }
    ensures small { result ≤ 0x4000000 }
{
    if u64::from(shape.counters()) * u64::from(shape.entries()) <= MOST_SMALL {
        SMALL_STRIDE * m
    } else {
        LARGE_STRIDE * (m + 1)
    }
}

/// The value of a map, and the counter in it, of which `number` counters of the map come before it.
#[inline(always)]
fn value_and_counter(shape: &MapShape, number: u32) -> (u32, u32)
    requires { number < shape.now.counters * shape.now.entries }
    ensures value { result.0 ≡ number / shape.now.counters }
    ensures counter { result.1 ≡ number % shape.now.counters }
{
    let counters = shape.counters();
    (number / counters, number % counters)
}

/// The row that a key has in a list, if the list's keys are of its size.
fn row_in(rows: &KeyedRows, key: &[u8]) -> Option<u64>
    ensures { result ≡ listed_in (Rows rows.now) key.now }
{
    if rows.kind().size() != key.len() {
        return None;
    }
    rows.has_one_answer();
    match rows.find(key) {
        Some(row) => Some(u64::from(row)),
        None => None,
    }
}

/// The byte of constants at the place that a key of four bytes names.
fn byte_at(bytes: &[u8], key: &[u8]) -> Option<u64>
    ensures { result ≡ (if length key.now == 4 then slice_get bytes.now (number_of key.now) else None) }
{
    if key.len() != 4 {
        return None;
    }
    match bytes.get(number_at(key, 0, Size::Word) as usize) {
        Some(byte) => Some(u64::from(*byte)),
        None => None,
    }
}

/// Returns what a list has for a key.
pub(crate) fn listed_in(list: &MapList, key: &[u8]) -> Option<u64>
    ensures { result ≡ listed_in list.now key.now }
{
    match list {
        MapList::Rows(rows) => row_in(rows, key),
        MapList::Constants(bytes) => byte_at(bytes.as_slice(), key),
    }
}

impl<'p, 'b> Machine<'p, 'b> {
    /// The map, the value and the counter in which the byte at an address lies.
    pub(crate) fn counter_at(&self, address: u64) -> (u32, u32, u32)
        requires few { length self.now.shapes.now ≤ most_maps }
        requires there { (bytes : ℕ) × IsInCounter (load_place (length self.now.packet.bytes) self.now.shapes.now address bytes) }
        ensures { (bytes : ℕ) → IsInCounter (load_place (length self.now.packet.bytes) self.now.shapes.now address bytes) →
            load_place (length self.now.packet.bytes) self.now.shapes.now address bytes ≡ InCounter result.0 result.1 result.2 }
    {
        let at = address - VALUES_START;
        let m = map_near(at);
        let shape = &self.shapes[m as usize];
        let number = (past_map(at) / 8) as u32;
        let (k, j) = value_and_counter(shape, number);
        (m as u32, k, j)
    }

    /// The address of a row's value, or 0 past the map's end, or without a row.
    fn value_address(&self, m: u64, row: Option<u64>) -> u64
        requires map { m < length self.now.shapes.now }
        requires few { length self.now.shapes.now ≤ most_maps }
        ensures { (shape : Shape) → slice_get self.now.shapes.now m ≡ Some shape → result ≡ value_or_null shape m row }
    {
        let Some(k) = row else {
            return 0;
        };
        let shape = &self.shapes[m as usize];
        if k < u64::from(shape.entries()) {
            VALUES_START + map_offset(shape, m) + 8 * (u64::from(shape.counters()) * k)
        } else {
            0
        }
    }

    /// The row that a key has in the list of map `m`.
    fn listed_row(&self, m: u64, key: &[u8]) -> Option<u64>
        requires { m < most_maps }
        ensures { result ≡ find_in self.now.lists.now m key.now }
    {
        match self.lists.get(m as usize) {
            Some(Some(list)) => listed_in(list, key),
            _ => None,
        }
    }

    /// The row that a key finds in map `m`, whose values are looked up so.
    fn row_of(&self, m: u64, by: MapKey, key: &[u8]) -> Option<u64>
        requires few { m < most_maps }
        requires sized { length key.now ≡ key_size by }
        ensures { result ≡ row_of (machine_state 0 self.now) m by key.now }
    {
        match by {
            MapKey::Index => Some(number_at(key, 0, Size::Word)),
            MapKey::Listed(_) => self.listed_row(m, key),
            MapKey::Constants(_) => None,
        }
    }

    /// The row that the key at a place of the stack finds in map `m`.
    fn row_at(&self, m: u64, place: usize) -> Option<u64>
        requires map { m < length self.now.shapes.now }
        requires few { length self.now.shapes.now ≤ most_maps }
        requires inside { (shape : Shape) → slice_get self.now.shapes.now m ≡ Some shape → place + key_size shape.key ≤ 512 }
        ensures { (shape : Shape) → slice_get self.now.shapes.now m ≡ Some shape → (key : List ℕ)
            × (bytes_at (slice_get self.now.packet.stack) place (key_size shape.key) ≡ Some key)
            × (result ≡ row_of (machine_state 0 self.now) m shape.key key) }
    {
        let stack = self.packet.stack();
        let by = self.shapes[m as usize].key();
        let end = place + by.size() as usize;
        let key = &stack[place..end];
        self.row_of(m, by, key)
    }

    /// Helper 1: `r0` becomes the address of the value under a key of the stack, or 0.
    pub(crate) fn look_up(&mut self, pc: u32) -> u32
        requires small { pc < 4096 }
        requires few { length self.old.shapes.now ≤ most_maps }
        requires advances { Advances (looked_up (machine_state pc self.old)) }
        ensures room { self.new.packet.room ≡ self.old.packet.room }
        ensures state { ComesTo (looked_up (machine_state pc self.old)) (machine_state result self.new) }
    {
        // Only the proof uses what these calls ensure: a packet is short, and the stack has 512 bytes.
        let _packet = self.packet.bytes();
        let _stack = self.packet.stack();
        let m = self.register(Register::R1) - REFERENCES_START;
        let place = self.register(Register::R2) - STACK_START;
        let row = self.row_at(m, place as usize);
        let address = self.value_address(m, row);
        self.set(pc, Register::R0, address)
    }
}
