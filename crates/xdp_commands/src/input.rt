//! Reading the settings.
ghost use Rattle.std.specs.Prelude.{◌≡◌, ◌≤◌, ◌<◌, ◌+◌, ◌++◌, ℕ, List, length, IfOk, vec_len};
ghost use Rattle.std.specs.Io.KnownBytes.{Consumes, IsAtEnd};
ghost use Rattle.xdp_commands.specs.Answer.{IsSettings, TakesAtMost};

use crate::stop::Stop;
use std::alloc::Global;
use std::io::Read;

/// One byte more than settings may have.
const MOST: usize = 1_048_577;

const BUFFER: usize = 4_096;

/// Adds the bytes of one read, and says how many came.
fn read_more<R: Read>(input: &mut R, buffer: &mut [u8], bytes: &mut Vec<u8>) -> Result<usize, Stop>
    requires { 0 < length buffer.old }
    ensures added { IfOk result (λ n. (vec_len bytes.new ≡ vec_len bytes.old + n) × (n ≤ length buffer.old)) }
    ensures took { IfOk result (λ n. (taken : List ℕ) × (bytes.new.items ≡ bytes.old.items ++ taken) ×
        Consumes (R.remaining input.old) (R.remaining input.new) taken) }
    ensures end { IfOk result (λ n. n ≡ 0 → IsAtEnd (R.remaining input.new)) }
    ensures few { TakesAtMost (length buffer.old) (R.remaining input.old) (R.remaining input.new) }
{
    let Ok(n) = input.read(buffer) else {
        return Err(Stop::Read);
    };
    bytes.extend_from_slice(&buffer[..n])?;
    Ok(n)
}

/// The bytes of the input, up to the first read that gives none, or until there are 1,048,577.
fn read_up_to<R: Read>(alloc: Global, input: &mut R) -> Result<Vec<u8>, Stop>
    ensures took { IfOk result (λ v. Consumes (R.remaining input.old) (R.remaining input.new) v.items) }
    ensures few { IfOk result (λ v. vec_len v ≤ 1048577) }
    ensures all { IfOk result (λ v. vec_len v < 1048577 → IsAtEnd (R.remaining input.new)) }
    ensures bound { TakesAtMost 1048577 (R.remaining input.old) (R.remaining input.new) }
{
    let mut bytes = Vec::new(alloc);
    let mut buffer = [0u8; BUFFER];
    while bytes.len() < MOST {
        let room = (MOST - bytes.len()).min(BUFFER);
        let n = read_more(input, &mut buffer[..room], &mut bytes)?;
        if n == 0 {
            return Ok(bytes);
        }
    }
    Ok(bytes)
}

/// The settings: what the input gives up to the first read that gives no byte, or its first 1,048,577 bytes, one more than
/// settings may have. A read that is interrupted has failed. Each read but the last gives a byte.
pub fn read_settings<R: Read>(alloc: Global, input: &mut R) -> Result<Vec<u8>, Stop>
    ensures settings { IfOk result (λ v. IsSettings (R.remaining input.old) (R.remaining input.new) v.items) }
    ensures bound { TakesAtMost 1048577 (R.remaining input.old) (R.remaining input.new) }
{
    read_up_to(alloc, input)
}
