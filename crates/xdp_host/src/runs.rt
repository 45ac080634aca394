//! Runs of a program, and the words of its counters.
ghost use Rattle.std.specs.Prelude.{◌≡◌, IfNone, IfSome, MatchOption, drop, length, min, take};
ghost use Rattle.bpf_maps.specs.Layout.{place_of, total};
ghost use Rattle.bpf_note.specs.Shape.{IsCounter};
ghost use Rattle.bpf_vm.specs.Actions.{action_of};
ghost use Rattle.xdp_program.specs.Ran.{Ran};
ghost use Rattle.xdp_program.specs.Refused.{IsMade, IsUnmade};
ghost use Rattle.xdp_host.specs.Batch.{RanEach};
ghost use Rattle.xdp_host.specs.Ran.{IsNotRun, action_number};

use crate::abi::XdpRun;
use crate::batch::{XdpPacket, run_each};
use crate::handle::XdpProgram;

/// Runs a program on a packet where it lies, and says how in `out`, whatever stood there: a result that is returned would pass through a
/// further call. With no program, too few words or a packet of more than 65,535 bytes nothing is run and nothing else changes.
#[unsafe(no_mangle)]
pub extern "C" fn laxonje_run_into(
    program: &mut XdpProgram,
    counters: &mut [u64],
    packet: &mut [u8],
    ifindex: u32,
    queue: u32,
    out: &mut XdpRun,
)
    ensures kept { program.new.slot.held ≡ program.old.slot.held }
    ensures made { IfSome program.old.slot.held (λ h. IsMade h.program.shapes counters.old packet.old →
        Ran h.program h.lists packet.old ifindex queue counters.old out.new.number packet.new counters.new out.new.instructions) }
    ensures action { out.new.action ≡ action_number (action_of out.new.number) }
    ensures unmade { IfSome program.old.slot.held (λ h. IsUnmade h.program.shapes counters.old packet.old →
        IsNotRun out.new packet.old packet.new counters.old counters.new) }
    ensures none { IfNone program.old.slot.held (IsNotRun out.new packet.old packet.new counters.old counters.new) }
    ensures words { length counters.new ≡ length counters.old }
{
    *out = match program.held_mut() {
        Some(held) => XdpRun::from(held.run(counters, packet, ifindex, queue)),
        None => XdpRun::nothing(),
    };
}

/// Runs a program on the packets of a batch, one after another where they lie, as far as there are results. How many
/// that are: with no program, none. A packet that doesn't lie in the bytes, or that [`laxonje_run_into`] wouldn't run, has the
/// result of no run.
#[unsafe(no_mangle)]
pub extern "C" fn laxonje_run_batch(
    program: &mut XdpProgram,
    counters: &mut [u64],
    bytes: &mut [u8],
    packets: &[XdpPacket],
    results: &mut [XdpRun],
    ifindex: u32,
    queue: u32,
) -> usize
    ensures kept { program.new.slot.held ≡ program.old.slot.held }
    ensures ran { IfSome program.old.slot.held (λ h. RanEach h.program h.lists ifindex queue (record { bytes = bytes.old; words = counters.old })
        (take result packets.now) (take result results.new) (record { bytes = bytes.new; words = counters.new })) }
    ensures count { IfSome program.old.slot.held (λ _. result ≡ min (length packets.now) (length results.old)) }
    ensures rest { drop result results.new ≡ drop result results.old }
    ensures none { IfNone program.old.slot.held ((result ≡ 0) × (bytes.new ≡ bytes.old) × (counters.new ≡ counters.old)) }
{
    match program.held_mut() {
        Some(held) => run_each(held, counters, bytes, packets, results, ifindex, queue),
        None => 0,
    }
}

/// Returns the number of words that a program's counters are. With no program, none.
#[unsafe(no_mangle)]
pub extern "C" fn laxonje_counters(program: &mut XdpProgram) -> usize
    ensures kept { program.new.slot.held ≡ program.old.slot.held }
    ensures words { MatchOption program.old.slot.held (result ≡ 0) (λ h. result ≡ total h.program.shapes) }
{
    match program.held_mut() {
        Some(held) => held.program.counters(),
        None => 0,
    }
}

/// Returns which of a program's words a counter is: the greatest number if there is no such counter, or no program.
#[unsafe(no_mangle)]
pub extern "C" fn laxonje_place(
    program: &mut XdpProgram,
    map: u32,
    value: u32,
    counter: u32,
) -> usize
    ensures kept { program.new.slot.held ≡ program.old.slot.held }
    ensures there { IfSome program.old.slot.held (λ h. IsCounter h.program.shapes map value counter → result
        ≡ place_of h.program.shapes map value counter) }
    ensures none { IfSome program.old.slot.held (λ h. (IsCounter h.program.shapes map value counter → ⊥) → result ≡ usize.MAX) }
    ensures empty { IfNone program.old.slot.held (result ≡ usize.MAX) }
{
    match program.held_mut() {
        Some(held) => {
            let place = held.program.place(map, value, counter);
            place.unwrap_or(usize::MAX)
        }
        None => usize::MAX,
    }
}
