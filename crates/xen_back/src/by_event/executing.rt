//! Running the program on the copy.

ghost use Rattle.std.specs.Prelude.{ℕ, List, ◌≡◌, ◌≢◌, ◌+◌, Some};
ghost use Rattle.bpf_vm.specs.Course.{left};
ghost use Rattle.xen_back.specs.Rest.{rest_at, rest_in};
ghost use Rattle.xen_steps.specs.Steps.{bind, next_by, want_of};
ghost use Rattle.xen_turns.specs.Tree.{after_copy, after_run, program};
ghost use Rattle.xen_turns.specs.declared.state.State.{State as StateView};
ghost use Rattle.xen_turns.specs.declared.wiring.Wiring.{Wiring as WiringView};

use crate::by_event::answering::begin_answers;
use crate::by_event::phase::Phase;
use crate::by_event::sent::begin_send;
use crate::by_event::stage::{Executing, Stage};
use crate::copy_buf::CopyBuf;
use bpf_vm::{Vm, VmWant, XDP_TX};
use xen_netif::Chain;
use xen_steps::Want;
use xen_turns::decisions::status;
use xen_turns::{Kind, State, Wiring};

/// After the copy.
pub(crate) fn begin_run<'p, 'b>(
    wiring: &Wiring<'p>,
    packet: CopyBuf<'b>,
    chain: Chain,
) -> Stage<'p, 'b>
    ensures { (s : StateView) → rest_in wiring.now s result ≡ after_copy wiring.now s chain (Some packet.entry) }
{
    let vm = Vm::start(
        wiring.program,
        packet.into_packet(),
        wiring.ifindex,
        wiring.queue,
        wiring.lists,
    );
    Stage::Run(Executing { chain, vm, ops: 0 })
}

/// Returns what the program wants.
pub(crate) fn executing_want(run: &Executing) -> Want
    ensures { (w : WiringView) (s : StateView) → result
        ≡ want_of (bind (program (left run.now.vm) run.now.ops) (after_run w s run.now.chain)) }
{
    match run.vm.want() {
        VmWant::Step => Want::Instr,
        VmWant::Exit { .. } => Want::Instr,
        VmWant::Load { m, k, j } => Want::Load { m, k, j },
        VmWant::Add { m, k, j, delta } => Want::Add { m, k, j, delta },
    }
}

/// After an instruction.
pub(crate) fn executed<'p, 'b>(state: &State, run: Executing<'p, 'b>, counter: u64) -> Stage<'p, 'b>
    ensures { (w : WiringView) (word : ℕ) → rest_in w state.now result
        ≡ next_by (bind (program (left run.entry.vm) run.entry.ops) (after_run w state.now run.entry.chain)) word counter }
{
    let Executing { chain, mut vm, ops } = run;
    match vm.want() {
        VmWant::Step => {
            vm.step();
            Stage::Run(Executing { chain, vm, ops })
        }
        VmWant::Load { .. } => {
            vm.loaded(counter);
            // Only the proof uses what this call ensures: the bound of the instructions.
            let _count = vm.count();
            Stage::Run(Executing {
                chain,
                vm,
                ops: ops + 1,
            })
        }
        VmWant::Add { .. } => {
            vm.added(counter);
            // Only the proof uses what this call ensures: the bound of the instructions.
            let _count = vm.count();
            Stage::Run(Executing {
                chain,
                vm,
                ops: ops + 1,
            })
        }
        VmWant::Exit { .. } => {
            let (number, packet) = vm.finish();
            let packet = CopyBuf::of(packet);
            if number == XDP_TX {
                Stage::Send(packet, begin_send(chain, ops))
            } else {
                Stage::At(packet, answer_run(state, &chain, number, ops))
            }
        }
    }
}

/// After a run whose packet isn't sent back.
fn answer_run(state: &State, chain: &Chain, number: u32, ops: u32) -> Phase
    requires { number ≢ 3 }
    ensures { (w : WiringView) (packet : List ℕ) → rest_at w state.now packet result
        ≡ after_run w state.now chain.now (record { number = number; packet = packet; ops = ops }) }
{
    let slots = chain.requests().len() as u32;
    let kind = Kind::Ran { number, ops, slots };
    begin_answers(*state, chain, status(number), kind)
}
