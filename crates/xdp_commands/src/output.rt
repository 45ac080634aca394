//! Writing.
ghost use Rattle.std.specs.Prelude.{ℕ, ◌<◌, length, take};
ghost use Rattle.std.specs.Bool.{OnFalse, OnTrue};
ghost use Rattle.std.specs.Io.KnownBytes.{Appends};
ghost use Rattle.xdp_commands.specs.Answer.{Prints};

use std::io::Write;

/// The exit status if a read or a write failed.
pub const FAILED: u8 = 4;

/// Writes all the bytes, and says whether each write took some. A write that is interrupted has failed.
fn put<W: Write>(output: &mut W, bytes: &[u8]) -> bool
    ensures all { OnTrue result (Appends (W.contents output.old) (W.contents output.new) bytes.now) }
    ensures front { OnFalse result ((n : ℕ) × (n < length bytes.now) ×
        Appends (W.contents output.old) (W.contents output.new) (take n bytes.now)) }
{
    let mut done = 0;
    while done < bytes.len() {
        match output.write(&bytes[done..]) {
            Ok(0) => return false,
            Ok(n) => done += n,
            Err(_) => return false,
        }
    }
    true
}

/// Prints a text, and gives the status, or 4 if a write failed.
pub fn say<W: Write>(output: &mut W, text: &str, status: u8) -> u8
    ensures { Prints (W.contents output.old) (W.contents output.new) (text.now, status) result }
{
    if put(output, text.as_bytes()) {
        status
    } else {
        FAILED
    }
}
