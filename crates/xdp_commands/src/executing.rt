//! What becomes of a program's bytes.
ghost use Rattle.std.specs.Prelude.{◌≤◌, IfErr, IfOk, length};
ghost use Rattle.bpf_note.specs.Shape.{most_maps};
ghost use Rattle.xdp_load.specs.ListedGiven.{listed_view};
ghost use Rattle.xdp_load.specs.ListedSound.{IsListedSound};
ghost use Rattle.xdp_commands.specs.Executing.{Checks, Executes, IsProgramOfBytes, IsRefusalOfBytes, RunsSetup};

use bpf_insn::{Refusal, decode};
use bpf_verify::{MapShape, Verified, verify};
use bpf_vm::{Ended, PacketBuf, run_to_end};
use std::alloc::{AllocError, Global};
use xdp_load::Listed;
use xdp_world::{Report, World};

/// Accepts a program with its maps, or refuses it.
pub fn accept(alloc: Global, program: &[u8], shapes: &[MapShape]) -> Result<Verified, Refusal>
    requires { length shapes.now ≤ most_maps }
    ensures ok { IfOk result (IsProgramOfBytes program.now shapes.now) }
    ensures err { IfErr result (IsRefusalOfBytes program.now shapes.now) }
{
    let code = decode(alloc, program)?;
    verify(alloc, code, shapes)
}

/// Accepts a program without maps and runs it on a packet, with interface and queue 0.
pub fn execute<'b>(
    alloc: Global,
    program: &[u8],
    packet: PacketBuf<'b>,
) -> Result<Ended<'b>, Refusal>
    ensures { Executes program.now packet.entry.bytes result }
{
    let verified = accept(alloc, program, &[])?;
    Ok(run_to_end(&verified, packet, 0, 0))
}

/// The size of an accepted program.
#[derive(Clone, Copy)]
pub struct Accepted {
    pub instructions: u32,
    pub slots: u32,
}

/// Accepts a program with its maps, or refuses it.
pub fn check(alloc: Global, program: &[u8], shapes: &[MapShape]) -> Result<Accepted, Refusal>
    requires { length shapes.now ≤ most_maps }
    ensures { Checks program.now shapes.now result }
{
    let verified = accept(alloc, program, shapes)?;
    Ok(Accepted {
        instructions: verified.instructions(),
        slots: verified.slots(),
    })
}

/// Accepts the program of a setup and runs the setup's queues through the steps of its script, with its lists and beginnings, or
/// refuses the program.
pub fn run(alloc: Global, listed: &Listed) -> Result<Result<Report, Refusal>, AllocError>
    requires { IsListedSound (listed_view listed.now) }
    ensures { IfOk result (RunsSetup (listed_view listed.now)) }
{
    let setup = &listed.setup;
    match accept(alloc, setup.program.as_slice(), setup.shapes.as_slice()) {
        Ok(program) => {
            let report = World::run(
                alloc,
                &program,
                listed.lists.as_slice(),
                setup.values.as_slice(),
                setup.queues,
                setup.ifindex,
                setup.start,
                setup.script.as_slice(),
            )?;
            Ok(Ok(report))
        }
        Err(refusal) => Ok(Err(refusal)),
    }
}
