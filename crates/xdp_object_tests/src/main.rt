//! Tests of [`xdp_object`] by what it makes public, and `xdp_object_tests`: answers the questions of standard input, one per line, by that
//! crate. What it has to write, the file `stdout`, is what LLVM's tools and libbpf say of the same objects.
//!
//! - `tests`: a small object, changed in one place
#![tactic(auto)]

#[cfg(test)]
mod tests;

use bpf_lists::MapList;
use std::alloc::{AllocError, Global};
use std::fmt::Write;
use std::io;
use xdp_object::{ObjectSetup, SetupFault, setup_of};

/// Adds a map's constants, if it has some.
fn write_constants(
    alloc: Global,
    text: &mut String,
    list: &Option<MapList>,
) -> Result<(), AllocError> {
    if let Some(MapList::Constants(bytes)) = list {
        let bytes = hex::encode(alloc, bytes.as_slice())?;
        write!(text, " {bytes}")?;
    }
    Ok(())
}

/// Adds a program, and the name, entries, counters, keys and constants of each of its maps.
fn write_setup(alloc: Global, text: &mut String, setup: &ObjectSetup) -> Result<(), AllocError> {
    text.push_str(hex::encode(alloc, setup.program.as_slice())?.as_str())?;
    let maps = setup.names.iter().zip(setup.shapes.iter());
    for ((name, shape), list) in maps.zip(setup.lists.iter()) {
        let (entries, counters, key) = (shape.entries(), shape.counters(), shape.key());
        write!(text, " {name} {entries} {counters} {key:?}")?;
        write_constants(alloc, text, list)?;
    }
    Ok(())
}

/// Adds the number of a fault, and where it is.
fn write_fault(text: &mut String, fault: SetupFault) -> Result<(), AllocError> {
    let (number, place) = (fault.number(), fault.place());
    write!(text, "O{number} at {place}")
}

/// The setup of the function of this name.
fn answer(alloc: Global, bytes: &[u8], name: &str) -> Result<String, AllocError> {
    let mut text = String::new(alloc);
    match setup_of(alloc, bytes, name.as_bytes()) {
        Ok(setup) => write_setup(alloc, &mut text, &setup)?,
        Err(fault) => write_fault(&mut text, fault)?,
    }
    Ok(text)
}

fn main(rt: HostRuntime) -> io::Result<()> {
    let mut bytes = Vec::new(rt.alloc());
    for line in rt.lines(rt.alloc()) {
        let line = line?;
        if line.starts_with('#') {
            println!(rt; "{line}")?;
        } else if let Some(object) = line.strip_prefix("object ") {
            bytes = hex::decode(rt.alloc(), object).unwrap_or_else(|_| Vec::new(rt.alloc()));
            let count = bytes.len();
            println!(rt; "{count} bytes")?;
        } else {
            let text = answer(rt.alloc(), bytes.as_slice(), line.as_str())?;
            println!(rt; "{text}")?;
        }
    }
    Ok(())
}
