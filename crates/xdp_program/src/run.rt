//! Whole runs of accepted programs.
ghost use Rattle.std.specs.Prelude.{◌≡◌, ◌≤◌, length};
ghost use Rattle.bpf_maps.specs.Layout.{total};
ghost use Rattle.bpf_verify.specs.Consistent.{instructions};
ghost use Rattle.xdp_program.specs.Ran.{Ran, RanCounting};
ghost use Rattle.xdp_program.specs.Tallies.{Went};

use crate::tallies::{CounterWords, Tallies};
use bpf_lists::MapList;
use bpf_verify::Verified;
use bpf_vm::{Ended, PacketBuf, Vm, VmWant, run_to_end};

/// Runs an accepted program on a packet, from one counter to the next, to its end, and counts the operations on counters.
/// The lists of its maps stand by the maps' numbers.
#[inline(always)]
pub fn run_counting<'b, T: Tallies>(
    program: &Verified,
    lists: &[Option<MapList>],
    counters: &mut T,
    packet: PacketBuf<'b>,
    ifindex: u32,
    queue: u32,
) -> (Ended<'b>, u32)
    requires { T.serves program.now.shapes counters.old }
    ensures ran { RanCounting (Went (T.did program.now.shapes) counters.old counters.new) program.now lists.now packet.entry.bytes ifindex queue
        result.0.number result.0.packet.bytes result.0.instructions result.1 }
    ensures room { result.0.packet.room ≡ packet.entry.room }
    ensures bound { result.0.instructions ≤ instructions program.now.code }
{
    let mut vm = Vm::start(program, packet, ifindex, queue, lists);
    let mut ops = 0;
    loop {
        match vm.advance() {
            VmWant::Load { m, k, j } => {
                let number = counters.load(program.shapes(), m, k, j);
                vm.loaded(number);
                vm.is_bounded();
                ops += 1;
            }
            VmWant::Add { m, k, j, delta } => {
                let old = counters.add(program.shapes(), m, k, j, delta);
                vm.added(old);
                vm.is_bounded();
                ops += 1;
            }
            VmWant::Exit { .. } => return (vm.end(), ops),
            VmWant::Step => unreachable!(),
        }
    }
}

/// As [`run_counting`], in words of the host's.
#[inline(always)]
fn run_in_words<'b>(
    program: &Verified,
    lists: &[Option<MapList>],
    counters: &mut CounterWords<'_>,
    packet: PacketBuf<'b>,
    ifindex: u32,
    queue: u32,
) -> Ended<'b>
    requires { total program.now.shapes ≤ length counters.old.words.now }
    ensures ran { Ran program.now lists.now packet.entry.bytes ifindex queue counters.old.words.now
        result.number result.packet.bytes counters.new.words.now result.instructions }
    ensures room { result.packet.room ≡ packet.entry.room }
    ensures bound { result.instructions ≤ instructions program.now.code }
    ensures words { length counters.new.words.now ≡ length counters.old.words.now }
    ensures loan { counters.new.words.ghost_name ≡ counters.old.words.ghost_name }
{
    run_counting(program, lists, counters, packet, ifindex, queue).0
}

/// Runs an accepted program on a packet, to its end, with the lists of its maps as in [`run_counting`]. The counters of its maps are the first words of `counters`.
#[inline(always)]
pub fn run_on<'b>(
    program: &Verified,
    lists: &[Option<MapList>],
    counters: &mut [u64],
    packet: PacketBuf<'b>,
    ifindex: u32,
    queue: u32,
) -> Ended<'b>
    requires { total program.now.shapes ≤ length counters.old }
    ensures ran { Ran program.now lists.now packet.entry.bytes ifindex queue counters.old
        result.number result.packet.bytes counters.new result.instructions }
    ensures room { result.packet.room ≡ packet.entry.room }
    ensures bound { result.instructions ≤ instructions program.now.code }
    ensures words { length counters.new ≡ length counters.old }
{
    if program.shapes().is_empty() {
        run_to_end(program, packet, ifindex, queue)
    } else {
        let mut words = CounterWords { words: counters };
        run_in_words(program, lists, &mut words, packet, ifindex, queue)
    }
}
