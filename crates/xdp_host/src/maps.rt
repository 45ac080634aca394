//! What C asks of a program's maps.
ghost use Rattle.std.specs.Prelude.{◌≡◌, ◌++◌, MatchOption, drop, length, take};
ghost use Rattle.xdp_host.specs.Maps.{map_at, map_or, name_at, no_map, number_of};

use crate::abi::XdpMap;
use crate::handle::XdpProgram;
use crate::queue_calls::copied;
use xdp_program::{MapShape, Program};

/// The size of a map, or none.
fn size_of(shape: Option<MapShape>) -> XdpMap
    ensures { result ≡ map_or shape }
{
    match shape {
        Some(shape) => XdpMap {
            entries: shape.entries(),
            counters: shape.counters(),
        },
        None => XdpMap {
            entries: 0,
            counters: 0,
        },
    }
}

/// The size of the map of this number.
fn map_size(program: &Program, number: u32) -> XdpMap
    ensures { result ≡ map_at program.now.shapes number }
{
    size_of(program.verified().shapes().get(number as usize).copied())
}

/// Returns the number of maps that a program has. With no program, none.
#[unsafe(no_mangle)]
pub extern "C" fn laxonje_map_count(program: &mut XdpProgram) -> usize
    ensures kept { program.new.slot.held ≡ program.old.slot.held }
    ensures count { MatchOption program.old.slot.held (result ≡ 0) (λ h. result ≡ length h.program.shapes) }
{
    match program.held_mut() {
        Some(held) => held.program.verified().shapes().len(),
        None => 0,
    }
}

/// The size of the map of this number, from 0: no entries and no counters if there is no such map, or no program.
#[unsafe(no_mangle)]
pub extern "C" fn laxonje_map_size(program: &mut XdpProgram, number: u32) -> XdpMap
    ensures kept { program.new.slot.held ≡ program.old.slot.held }
    ensures size { MatchOption program.old.slot.held (result ≡ no_map) (λ h. result ≡ map_at h.program.shapes number) }
{
    match program.held_mut() {
        Some(held) => map_size(&held.program, number),
        None => size_of(None),
    }
}

/// The number of the map with this name, from 0: the greatest number if there is no such map, or no program.
#[unsafe(no_mangle)]
pub extern "C" fn laxonje_map_named(program: &mut XdpProgram, name: &[u8]) -> usize
    ensures kept { program.new.slot.held ≡ program.old.slot.held }
    ensures number { MatchOption program.old.slot.held (result ≡ usize.MAX) (λ h. result ≡ number_of h.names name.now) }
{
    match program.held_mut() {
        Some(held) => held.names.number(name).unwrap_or(usize::MAX),
        None => usize::MAX,
    }
}

/// Copies out the name of the map of this number, from 0, as far as there is room. How many bytes it has: none if it has no name, if
/// there is no such map, or no program.
#[unsafe(no_mangle)]
pub extern "C" fn laxonje_map_name(program: &mut XdpProgram, number: u32, out: &mut [u8]) -> usize
    ensures kept { program.new.slot.held ≡ program.old.slot.held }
    ensures count { MatchOption program.old.slot.held (result ≡ 0) (λ h. result ≡ length (name_at h.names number)) }
    ensures copied { MatchOption program.old.slot.held (out.new ≡ out.old)
        (λ h. out.new ≡ take (length out.old) (name_at h.names number) ++ drop (length (name_at h.names number)) out.old) }
{
    match program.held_mut() {
        Some(held) => copied(held.names.name(number as usize), out),
        None => 0,
    }
}
