//! Tests of [`bpf_object`] by what it makes public, and `bpf_object_tests`: answers the questions of standard input, one per line,
//! by that crate. What it has to write, the file `stdout`, is what LLVM's tools say of the same objects.
//!
//! - `tests`: small objects, each changed in one place, and `growth`
#![tactic(auto)]

#[cfg(test)]
mod tests;

use bpf_object::{ConstantsFault, Object};
use std::alloc::{AllocError, Global};
use std::fmt::Write;
use std::io;

/// Adds what a function of an object is: its bytes, each slot with the symbol of its map, and each with the section and the place of its
/// constant.
fn write_program(
    alloc: Global,
    text: &mut String,
    object: &Object,
    name: &str,
) -> Result<(), AllocError> {
    let program = match object.program(alloc, name.as_bytes()) {
        Ok(program) => program,
        Err(fault) => return write!(text, "{fault:?}"),
    };
    text.push_str(hex::encode(alloc, program.code)?.as_str())?;
    for reference in program.maps.iter() {
        let slot = reference.slot;
        let map = reference.map;
        write!(text, " {slot} {map}")?;
    }
    for reference in program.constants.iter() {
        let (slot, section, place) = (reference.slot, reference.section, reference.place);
        write!(text, " {slot} {section}+{place}")?;
    }
    Ok(())
}

/// Adds the number and the name of each map of an object.
fn write_maps(text: &mut String, object: &Object) -> Result<(), AllocError> {
    let mut from = 0;
    for _ in 0..u32::MAX {
        let Some(map) = object.next_map(from) else {
            break;
        };
        write!(text, " {map}")?;
        from = map + 1;
    }
    Ok(())
}

/// Adds what each map of an object is: its number, type, entries, and the sizes of keys and values.
fn write_definitions(alloc: Global, text: &mut String, object: &Object) -> Result<(), AllocError> {
    let types = match object.types(alloc) {
        Ok(types) => types,
        Err(fault) => return write!(text, "{fault:?}"),
    };
    let mut from = 0;
    for _ in 0..u32::MAX {
        let Some(map) = object.next_map(from) else {
            break;
        };
        match object.map(alloc, &types, map) {
            Ok(found) => {
                let (kind, entries) = (found.kind, found.entries);
                let (key, value) = (found.key_bytes, found.value_bytes);
                write!(text, " {map}: {kind} {entries} {key} {value}")?;
            }
            Err(fault) => write!(text, " {map}: {fault:?}")?,
        }
        from = map + 1;
    }
    Ok(())
}

/// Adds the number, the name and the bytes of each section of constants of an object.
fn write_constants(alloc: Global, text: &mut String, object: &Object) -> Result<(), AllocError> {
    for section in 0..100 {
        match object.constants(section) {
            Ok(found) => {
                let (name, bytes) = (found.name, hex::encode(alloc, found.bytes)?);
                let name = std::str::from_utf8(name).unwrap_or("?");
                write!(text, " {section} {name} {bytes}")?;
            }
            Err(ConstantsFault::NoConstants) => (),
            Err(fault) => write!(text, " {section} {fault:?}")?,
        }
    }
    Ok(())
}

/// The answer to a question about an object: its maps, what they are, its constants, or the program of a name.
fn answer(alloc: Global, bytes: &[u8], question: &str) -> Result<String, AllocError> {
    let mut text = String::new(alloc);
    match Object::parse(bytes) {
        Err(fault) => write!(text, "{fault:?}")?,
        Ok(object) => match question.strip_prefix("program ") {
            Some(name) => write_program(alloc, &mut text, &object, name)?,
            None if question == "definitions" => write_definitions(alloc, &mut text, &object)?,
            None if question == "constants" => write_constants(alloc, &mut text, &object)?,
            None => write_maps(&mut text, &object)?,
        },
    }
    Ok(text)
}

fn main(rt: HostRuntime) -> io::Result<()> {
    let mut bytes = Vec::new(rt.alloc());
    for line in rt.lines(rt.alloc()) {
        let line = line?;
        if line.starts_with('#') {
            println!(rt; "{line}")?;
        } else if let Some(object) = line.strip_prefix("object ") {
            bytes = hex::decode(rt.alloc(), object).unwrap_or_else(|_| Vec::new(rt.alloc()));
            let count = bytes.len();
            println!(rt; "{count} bytes")?;
        } else {
            let text = answer(rt.alloc(), bytes.as_slice(), line.as_str())?;
            println!(rt; "{text}")?;
        }
    }
    Ok(())
}
