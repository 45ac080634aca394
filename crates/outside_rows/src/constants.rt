//! Questions about programs that read constants: what they return, and the packet that they leave.

use bpf_insn::decode;
use bpf_lists::{ConstantBytes, MapList};
use bpf_note::{MapKey, MapShape};
use bpf_verify::{Verified, verify};
use bpf_vm::{Buffer, PacketBuf, Vm, VmWant};
use std::alloc::{AllocError, Global};

/// The most maps that a program has.
const MOST_MAPS: usize = 16;

/// Maps of constants, and what is given for each.
#[derive(Drop)]
struct ConstantMaps {
    shapes: Vec<MapShape>,
    lists: Vec<Option<MapList>>,
}

/// The maps of a question, with a comma between the bytes of two.
fn maps_of_constants(alloc: Global, text: &str) -> Option<ConstantMaps> {
    let mut shapes = Vec::new(alloc);
    let mut lists = Vec::new(alloc);
    for map in text.split(',') {
        let bytes = hex::decode(alloc, map).ok()?;
        let count = u32::try_from(bytes.len()).ok()?;
        shapes
            .push(MapShape::keyed(MapKey::Constants(count), 1, 1)?)
            .ok()?;
        lists
            .push(Some(MapList::Constants(ConstantBytes::make(bytes))))
            .ok()?;
    }
    Some(ConstantMaps { shapes, lists })
}

/// The program of a question, if it is accepted.
fn accepted(alloc: Global, text: &str, shapes: &[MapShape]) -> Option<Verified> {
    if MOST_MAPS < shapes.len() {
        return None;
    }
    let bytes = hex::decode(alloc, text).ok()?;
    verify(alloc, decode(alloc, &bytes).ok()?, shapes).ok()
}

/// The number and the packet at an exit.
fn at_exit(alloc: Global, mut vm: Vm<'_, '_>) -> Option<String> {
    match vm.advance() {
        VmWant::Exit { .. } => {
            let (number, packet) = vm.finish();
            let left = hex::encode(alloc, packet.bytes()).ok()?;
            format!(in alloc; "{number} {left}").ok()
        }
        _ => None,
    }
}

/// The number and the packet at the exit of a question's program, if it is accepted.
fn ended(alloc: Global, rest: &str) -> Option<String> {
    let mut words = rest.split(' ');
    let program = words.next()?;
    let packet = hex::decode(alloc, words.next()?).ok()?;
    let ConstantMaps { shapes, lists } = maps_of_constants(alloc, words.next()?)?;
    let program = accepted(alloc, program, &shapes)?;
    let mut buffer = Buffer::make(alloc).ok()?;
    let packet = PacketBuf::copy(&mut buffer, &packet).ok()?;
    at_exit(alloc, Vm::start(&program, packet, 0, 0, &lists))
}

/// The answer to a question about a program that reads constants, if it is one.
pub fn answer(alloc: Global, kind: &str, rest: &str) -> Result<Option<String>, AllocError> {
    match kind {
        "constants" => match ended(alloc, rest) {
            Some(text) => Ok(Some(text)),
            None => Ok(Some(format!(in alloc; "refused")?)),
        },
        _ => Ok(None),
    }
}
