//! The lines of the counters that a run leaves.
ghost use Rattle.std.specs.Prelude.{◌≡◌, ◌<◌, ◌≤◌, ◌++◌, IfOk, OnOk, Some, length, map, slice_get, string_bytes};
ghost use Rattle.bpf_note.specs.Shape.{most_maps};
ghost use Rattle.xdp_commands.specs.CounterLines.{counter_text, map_text, maps_text, place_text, value_text};

use crate::numbers::Numbers;
use bpf_note::MapShape;
use std::alloc::{AllocError, Global};

/// The place of a counter in its value, if a value has several.
fn place_text(alloc: Global, shape: MapShape, j: u32) -> Result<String, AllocError>
    ensures { IfOk result (λ s. string_bytes s ≡ place_text shape j) }
{
    if shape.counters() == 1 {
        Ok(String::new(alloc))
    } else {
        format!(in alloc; " {j}")
    }
}

/// The line of counter `j` of value `k`; a counter that is 0 has none.
fn counter_text(
    alloc: Global,
    name: &str,
    shape: MapShape,
    k: u32,
    j: u32,
    number: u64,
) -> Result<String, AllocError>
    ensures { IfOk result (λ s. string_bytes s ≡ counter_text name.now shape k j number) }
{
    if number == 0 {
        return Ok(String::new(alloc));
    }
    let place = place_text(alloc, shape, j)?;
    format!(in alloc; "counter {name} {k}{place} {number}\n")
}

/// Adds the lines of the counters of value `k` of map `m`.
fn add_value<N: Numbers>(
    alloc: Global,
    text: &mut String,
    name: &str,
    numbers: &N,
    m: u32,
    shape: MapShape,
    k: u32,
) -> Result<(), AllocError>
    requires map { slice_get (N.shapes_of numbers.now) m ≡ Some shape }
    requires value { k < shape.entries }
    ensures { OnOk result (string_bytes text.new ≡ string_bytes text.old
        ++ value_text (N.number_at numbers.now m k) name.now shape k 0 shape.counters) }
{
    for j in 0..shape.counters() {
        let line = counter_text(alloc, name, shape, k, j, numbers.number(m, k, j))?;
        text.push_str(line.as_str())?;
    }
    Ok(())
}

/// Adds the lines of the counters of map `m`.
fn add_map<N: Numbers>(
    alloc: Global,
    text: &mut String,
    name: &str,
    numbers: &N,
    m: u32,
    shape: MapShape,
) -> Result<(), AllocError>
    requires { slice_get (N.shapes_of numbers.now) m ≡ Some shape }
    ensures { OnOk result (string_bytes text.new ≡ string_bytes text.old
        ++ map_text (N.number_at numbers.now m) name.now shape 0 shape.entries) }
{
    for k in 0..shape.entries() {
        add_value(alloc, text, name, numbers, m, shape, k)?;
    }
    Ok(())
}

/// Adds the lines of all counters.
pub fn add_counters<N: Numbers>(
    alloc: Global,
    text: &mut String,
    names: &[String],
    shapes: &[MapShape],
    numbers: &N,
) -> Result<(), AllocError>
    requires named { length names.now ≡ length shapes.now }
    requires few { length shapes.now ≤ most_maps }
    requires shapes { N.shapes_of numbers.now ≡ shapes.now }
    ensures { OnOk result (string_bytes text.new ≡ string_bytes text.old
        ++ maps_text (N.number_at numbers.now) 0 (map string_bytes names.now) shapes.now) }
{
    for m in 0..names.len() {
        add_map(alloc, text, names[m].as_str(), numbers, m as u32, shapes[m])?;
    }
    Ok(())
}
