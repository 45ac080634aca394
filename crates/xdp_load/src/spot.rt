//! Where settings can be wrong, and what is said of it.
ghost use Rattle.std.specs.Prelude.{◌≡◌, ◌<◌, ◌≤◌, ◌==◌, ◌++◌, IfOk, IfSome, Some, codes, count_by, decimal, length, map, string_bytes};
ghost use Rattle.xdp_load.specs.Spot.{at, row, unknown};
ghost use Rattle.xdp_load.specs.SpotSeen.{spot_seen};
ghost use Rattle.xdp_load.specs.Spots.{IsSpotText, IsSyntaxLine, lines_in, numbered, spot_number, spot_text, syntax_text};

use crate::key::Key;
use crate::lines::{lines_of, row_line, top_line};
use crate::setup::text_of;
use std::alloc::{AllocError, Global};

/// A spot in settings.
#[derive(Debug, PartialEq, Eq, Drop)]
pub enum Spot {
    /// The text as a whole.
    Text,
    /// Before the byte with that number, TOML's reader stopped.
    Byte(usize),
    /// A key.
    At(Key),
    /// A row of a list by its number from 0, and which of its keys.
    Row(Key, usize),
    /// A key that settings don't have.
    Unknown(String),
}

/// Returns what is allowed at a key of the document.
fn key_text(alloc: Global, key: Key) -> Result<String, AllocError>
    ensures { IfOk result (λ s. string_bytes s ≡ spot_text (at key)) }
{
    let list = key.list_name();
    let allowed = key.allowed();
    format!(in alloc; "{list}: {allowed}\n")
}

/// Returns what is allowed in a whole row of a list.
fn whole_text(alloc: Global, list: &str, number: usize, allowed: &str) -> Result<String, AllocError>
    ensures { IfOk result (λ s. string_bytes s
        ≡ list.now ++ (codes " " ++ (decimal number ++ (codes ": " ++ (allowed.now ++ codes "\n"))))) }
{
    format!(in alloc; "{list} {number}: {allowed}\n")
}

/// Returns what is allowed in a row of a list.
fn row_text(alloc: Global, key: Key, number: usize) -> Result<String, AllocError>
    ensures { IfOk result (λ s. string_bytes s ≡ spot_text (row key number)) }
{
    let list = key.list_name();
    let allowed = key.allowed();
    match key.part_name() {
        Some(part) => format!(in alloc; "{list} {number}, {part}: {allowed}\n"),
        None => whole_text(alloc, list, number, allowed),
    }
}

/// Returns the text that says that a key is none.
fn unknown_text(alloc: Global, name: &str) -> Result<String, AllocError>
    ensures { IfOk result (λ s. string_bytes s ≡ spot_text (unknown name.now)) }
{
    format!(in alloc; "{name}: no key of settings\n")
}

/// Returns what is allowed at a spot.
fn spot_text(alloc: Global, spot: &Spot) -> Result<String, AllocError>
    ensures { IfOk result (λ s. string_bytes s ≡ spot_text (spot_seen spot.now)) }
{
    match spot {
        Spot::Text => String::from_str(alloc, "text: at most 1048576 bytes of UTF-8\n"),
        Spot::Byte(_) => Ok(String::new(alloc)),
        Spot::At(key) => key_text(alloc, *key),
        Spot::Row(key, number) => row_text(alloc, *key, *number),
        Spot::Unknown(name) => unknown_text(alloc, name.as_str()),
    }
}

/// The number of a line, counted from 0, before what is said of it.
fn before_text(alloc: Global, before: usize, said: &str) -> Result<String, AllocError>
    requires { before < usize.MAX }
    ensures { IfOk result (λ s. string_bytes s ≡ numbered (Some before) said.now) }
{
    let line = before + 1;
    format!(in alloc; "line {line}: {said}")
}

/// The line of a spot, counted from 0, where one is found.
fn spot_number(spot: &Spot, lines: &[&str]) -> Option<usize>
    ensures value { result ≡ spot_number (spot_seen spot.now) (map (λ l. l.now) lines.now) }
    ensures within { IfSome result (λ i. i < length lines.now) }
{
    match spot {
        Spot::Text | Spot::Byte(_) => None,
        Spot::At(key) => top_line(key.list_name(), lines),
        Spot::Row(key, number) => row_line(key.list_name(), key.part_name(), *number, lines),
        Spot::Unknown(name) => top_line(name.as_str(), lines),
    }
}

/// The line that says what is allowed at a spot, with the number of its line in the text.
fn numbered_text(alloc: Global, spot: &Spot, lines: &[&str]) -> Result<String, AllocError>
    ensures { IfOk result (λ s. string_bytes s
        ≡ numbered (spot_number (spot_seen spot.now) (map (λ l. l.now) lines.now)) (spot_text (spot_seen spot.now))) }
{
    let said = spot_text(alloc, spot)?;
    match spot_number(spot, lines) {
        Some(before) => before_text(alloc, before, said.as_str()),
        None => Ok(said),
    }
}

/// The lines of settings; none of what is no text.
fn lines_in(alloc: Global, bytes: &[u8]) -> Result<Vec<&str>, AllocError>
    ensures { IfOk result (λ v. map (λ l. l.now) v.items ≡ lines_in bytes.now) }
{
    match text_of(bytes) {
        Some(text) => lines_of(alloc, text),
        None => Ok(Vec::new(alloc)),
    }
}

/// Returns the number of lines that end in these bytes.
fn lines_ended(bytes: &[u8]) -> usize
    ensures count { result ≡ count_by (λ b. b == 10) bytes.now }
    ensures within { result ≤ length bytes.now }
{
    bytes.iter().filter(|byte| **byte == b'\n').count()
}

/// The line of a text that is no TOML from that byte on.
fn syntax_text(alloc: Global, bytes: &[u8], start: usize) -> Result<String, AllocError>
    requires { start ≤ length bytes.now }
    ensures { IfOk result (λ s. string_bytes s ≡ syntax_text start bytes.now) }
{
    let line = lines_ended(&bytes[..start]) + 1;
    format!(in alloc; "line {line}: no TOML begins or goes on here\n")
}

/// The line of a text at which TOML's reader stopped.
fn syntax_line(alloc: Global, bytes: &[u8], start: usize) -> Result<String, AllocError>
    ensures { IfOk result (λ s. IsSyntaxLine bytes.now (string_bytes s)) }
{
    let start = start.min(bytes.len());
    syntax_text(alloc, bytes, start)
}

/// The line that says what is allowed at a spot of settings, and where it is found.
fn placed_text(alloc: Global, spot: &Spot, bytes: &[u8]) -> Result<String, AllocError>
    ensures { IfOk result (λ s. string_bytes s
        ≡ numbered (spot_number (spot_seen spot.now) (lines_in bytes.now)) (spot_text (spot_seen spot.now))) }
{
    let lines = lines_in(alloc, bytes)?;
    numbered_text(alloc, spot, lines.as_slice())
}

/// The line that says where the spot of a fault is in settings, by which [`load`](crate::load) refused them, and what is allowed there.
pub fn fault_text(alloc: Global, spot: &Spot, bytes: &[u8]) -> Result<String, AllocError>
    ensures { IfOk result (λ s. IsSpotText (spot_seen spot.now) bytes.now (string_bytes s)) }
{
    match spot {
        Spot::Byte(start) => syntax_line(alloc, bytes, *start),
        _ => placed_text(alloc, spot, bytes),
    }
}
