//! Programs: verified, and run on a packet.
ghost use Rattle.std.specs.Prelude.{◌≡◌, [], IfOk};

use crate::fault::Fault;
use crate::timing::{Timed, since};
use bpf_insn::decode;
use bpf_verify::{Verified, verify};
use bpf_vm::{Buffer, PacketBuf, run_to_end};
use std::alloc::{Alloc, Global};
use std::time::{Clock, Instant};

/// The accepted program of these bytes, without maps.
pub fn accepted(alloc: Global, program: &[u8]) -> Result<Verified, Fault>
    ensures { IfOk result (λ v. v.shapes ≡ []) }
{
    let code = decode(alloc, program).map_err(|_| Fault::Refused)?;
    verify(alloc, code, &[]).map_err(|_| Fault::Refused)
}

/// Decodes and verifies a program, `times` times.
pub fn time_verify(rt: &HostRuntime, times: u32, program: &[u8]) -> Result<Timed, Fault> {
    let start = Instant::now(rt).map_err(|_| Fault::Clock)?;
    for _time in 0..times {
        accepted(rt.alloc(), program)?;
    }
    let taken = since(rt, &start)?;
    Ok(Timed {
        done: times,
        nanoseconds: if times > 1 { Some(taken) } else { None },
    })
}

/// Runs a program on a packet, `times` times.
pub fn time_run(
    rt: &HostRuntime,
    times: u32,
    program: &[u8],
    packet: &[u8],
) -> Result<Timed, Fault> {
    let program = accepted(rt.alloc(), program)?;
    let mut buffer = Buffer::make(rt.alloc())?;
    let start = Instant::now(rt).map_err(|_| Fault::Clock)?;
    let mut instructions = 0u32;
    for _time in 0..times {
        let Ok(packet) = PacketBuf::copy(&mut buffer, packet) else {
            return Err(Fault::Unexpected);
        };
        instructions = run_to_end(&program, packet, 0, 0).instructions;
    }
    let taken = since(rt, &start)?;
    Ok(Timed {
        done: instructions,
        nanoseconds: if times > 1 { Some(taken) } else { None },
    })
}
