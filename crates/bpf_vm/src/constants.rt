//! Loads of constants.
ghost use Rattle.std.specs.Prelude.{◌≡◌, ◌+◌, ◌<◌, ◌^◌, ◌≤◌, ℕ, List, Option, length};
ghost use Rattle.bpf_insn.specs.Size.{size_bytes};
ghost use Rattle.bpf_lists.specs.Find.{find_in};
ghost use Rattle.bpf_note.specs.Bytes.{bytes_of, number_of};
ghost use Rattle.bpf_note.specs.Constants.{constant_byte, constants_at, constants_from};
ghost use Rattle.bpf_note.specs.State.{constants_start};
ghost use Rattle.bpf_vm.specs.Running.{IsListOf};

use crate::bytes::{are_bytes, number_at};
use crate::lookup::listed_in;
use crate::machine::Machine;
use bpf_insn::Size;
use bpf_lists::MapList;
use bpf_note::{CONSTANTS_START, CONSTANTS_STRIDE};

/// A number in four bytes, the lowest first.
fn key_of(place: u32) -> [u8; 4]
    ensures { result ≡ bytes_of 4 place }
{
    [
        (place % 256) as u8,
        (place / 256 % 256) as u8,
        (place / 256 / 256 % 256) as u8,
        (place / 256 / 256 / 256 % 256) as u8,
    ]
}

/// The byte of constants at a place, or 0.
fn byte_in(lists: &[Option<MapList>], m: u64, place: u32) -> u64
    ensures value { result ≡ constant_byte (find_in lists.now m (bytes_of 4 place)) }
    ensures small { result < 2 ^ 8 }
{
    let key = key_of(place);
    let found = match lists.get(m as usize) {
        Some(Some(list)) => listed_in(list, &key),
        _ => None,
    };
    match found {
        Some(byte) => byte % 256,
        None => 0,
    }
}

/// The number in two bytes of constants.
#[tactic(auto, using(crate::proofs::ConstantLemmas::in_two))]
fn half_in(lists: &[Option<MapList>], m: u64, place: u32) -> u64
    requires { place < 2 ^ 17 }
    ensures value { result ≡ number_of (constants_from (find_in lists.now) m place 2) }
    ensures small { result < 2 ^ 16 }
{
    byte_in(lists, m, place) + 256 * byte_in(lists, m, place + 1)
}

/// The number in four bytes of constants.
#[tactic(auto, using(crate::proofs::ConstantLemmas::in_four))]
fn word_in(lists: &[Option<MapList>], m: u64, place: u32) -> u64
    requires { place < 131070 }
    ensures value { result ≡ number_of (constants_from (find_in lists.now) m place 4) }
    ensures small { result < 2 ^ 32 }
{
    half_in(lists, m, place) + 65536 * half_in(lists, m, place + 2)
}

/// The number in `size` bytes of constants.
#[tactic(auto, using(crate::proofs::ConstantLemmas::in_two, crate::proofs::ConstantLemmas::in_eight))]
fn number_in(lists: &[Option<MapList>], m: u64, place: u32, size: Size) -> u64
    requires { place < 2 ^ 16 }
    ensures { result ≡ number_of (constants_from (find_in lists.now) m place (size_bytes size)) }
{
    match size {
        Size::Byte => byte_in(lists, m, place),
        Size::Half => half_in(lists, m, place),
        Size::Word => word_in(lists, m, place),
        Size::Double => word_in(lists, m, place) + 4_294_967_296 * word_in(lists, m, place + 4),
    }
}

/// The number in `size` bytes of a list of constants.
fn in_bytes(bytes: &[u8], place: usize, size: Size) -> u64
    requires inside { place + size_bytes size ≤ length bytes.now }
    requires small { place < 2 ^ 16 }
    ensures { (find : ℕ → List ℕ → Option ℕ) (m : ℕ) → IsListOf find m bytes.now →
        result ≡ number_of (constants_from find m place (size_bytes size)) }
{
    // Only the proof uses what this call ensures: each is a byte.
    are_bytes(bytes);
    number_at(bytes, place, size)
}

impl<'p, 'b> Machine<'p, 'b> {
    /// The number in constants at an address.
    pub(crate) fn load_of_constants(&self, address: u64, size: Size) -> u64
        requires { constants_start ≤ address }
        ensures { result ≡ number_of (constants_at (find_in self.now.lists.now) address (size_bytes size)) }
    {
        let past = address - CONSTANTS_START;
        let m = past / CONSTANTS_STRIDE;
        let place = past % CONSTANTS_STRIDE;
        if let Some(Some(MapList::Constants(bytes))) = self.lists.get(m as usize) {
            let bytes = bytes.as_slice();
            if place as usize + size.bytes() <= bytes.len() {
                return in_bytes(bytes, place as usize, size);
            }
        }
        number_in(self.lists, m, place as u32, size)
    }
}
