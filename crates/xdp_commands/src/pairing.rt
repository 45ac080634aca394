//! A setup whose queues run on threads.
ghost use Rattle.std.specs.Prelude.{IfOk};
ghost use Rattle.xdp_load.specs.ListedGiven.{listed_view};
ghost use Rattle.xdp_load.specs.ListedSound.{IsListedSound};
ghost use Rattle.xdp_commands.specs.Executing.{IsProgramOfBytes};
ghost use Rattle.xdp_commands.specs.Pairing.{Comes, IsPaired};

use crate::executing::accept;
use bpf_insn::Refusal;
use bpf_verify::Verified;
use std::alloc::{AllocError, Global};
use std::sync::Wait;
use std::thread::Threads;
use thread_pair::{OnPass, Open, PairFault, PairReport, pair_with};
use xdp_load::Listed;

/// The outcome of a setup whose queues were to run on threads.
#[derive(Drop)]
pub enum Paired {
    /// They ran.
    Ran(PairReport),
    /// The program was refused.
    Refused(Refusal),
    /// A ring couldn't be mapped, and nothing ran.
    NotMapped,
    /// A thread couldn't be started; those that were started have ended.
    NotStarted,
}

/// Returns what becomes of a setup by a run of its queues.
pub fn outcome(ran: Result<PairReport, PairFault>) -> Result<Paired, AllocError>
    ensures { IfOk result (Comes ran) }
{
    match ran {
        Ok(report) => Ok(Paired::Ran(report)),
        Err(PairFault::Memory) => Err(AllocError),
        Err(PairFault::Map) => Ok(Paired::NotMapped),
        Err(PairFault::Thread) => Ok(Paired::NotStarted),
    }
}

/// Runs the queues of a setup whose program was accepted.
fn run_pairs<T: Threads + Wait + Sync>(
    rt: &T,
    alloc: Global,
    listed: &Listed,
    program: &Verified,
    host: OnPass,
    turns: u32,
) -> Result<Paired, AllocError>
    requires sound { IsListedSound (listed_view listed.now) }
    requires program { IsProgramOfBytes listed.now.setup.program.items listed.now.setup.shapes.items program.now }
    ensures { IfOk result (IsPaired (listed_view listed.now) turns host) }
{
    outcome(pair_with(rt, alloc, listed, program, host, turns, &Open))
}

/// Accepts the program of a setup and runs the setup's queues on threads, with its lists and each in at most `turns` turns,
/// beside a host that answers or doesn't; or refuses the program.
pub fn pair<T: Threads + Wait + Sync>(
    rt: &T,
    alloc: Global,
    listed: &Listed,
    host: OnPass,
    turns: u32,
) -> Result<Paired, AllocError>
    requires { IsListedSound (listed_view listed.now) }
    ensures { IfOk result (IsPaired (listed_view listed.now) turns host) }
{
    let setup = &listed.setup;
    match accept(alloc, setup.program.as_slice(), setup.shapes.as_slice()) {
        Ok(program) => run_pairs(rt, alloc, listed, &program, host, turns),
        Err(refusal) => Ok(Paired::Refused(refusal)),
    }
}
