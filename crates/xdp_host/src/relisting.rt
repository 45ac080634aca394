//! Lists of maps that become others: a program's by a settings text, and a queue's by a program.
ghost use Rattle.std.specs.Prelude.{◌≡◌, IfNone, IfSome, IsSome, None};
ghost use Rattle.xdp_host.specs.Begins.{no_queue};
ghost use Rattle.xdp_host.specs.Relisted.{TakesLists, TakesText, no_program, relist_number};
ghost use Rattle.xdp_host.specs.Verdict.{verdict_of};

use crate::abi::XdpVerdict;
use crate::fault::Fault;
use crate::handle::XdpProgram;
use crate::loaded_program::LoadedProgram;
use crate::queue_abi::NO_QUEUE;
use crate::queue_handle::XdpQueue;
use std::alloc::Global;
use xen_host::{Queue, Relist};

/// The answer if the program's maps aren't the queue's.
const OTHER_MAPS: u32 = 3;

/// The answer if memory ran out.
const NO_MEMORY: u32 = 4;

/// The answer if there is no program.
const NO_PROGRAM: u32 = 5;

/// The number of the answer to lists that are to become a queue's.
fn relist_number(answer: Relist) -> u32
    ensures { result ≡ relist_number answer }
{
    match answer {
        Relist::Relisted => 0,
        Relist::Busy => 2,
    }
}

/// Takes the lists of a settings text in place of a program's.
fn take_text(alloc: Global, held: &mut LoadedProgram, text: &[u8]) -> XdpVerdict
    ensures { TakesText text.now held.old held.new result }
{
    match held.program.relisted(alloc, text) {
        Ok(lists) => {
            held.lists = lists;
            held.verdict()
        }
        Err(fault) => XdpVerdict::from(fault),
    }
}

/// Gives a queue the lists of a program.
fn give_lists(queue: &mut Queue, held: &LoadedProgram) -> u32
    ensures { TakesLists queue.old queue.new held.now result }
{
    if !queue.has_maps_of(&held.program) {
        return OTHER_MAPS;
    }
    match held.lists.again() {
        Ok(lists) => relist_number(queue.relist(lists)),
        Err(_) => NO_MEMORY,
    }
}

/// Gives a queue the lists of what a handle holds.
fn give_held(queue: &mut Queue, program: &mut XdpProgram) -> u32
    ensures kept { program.new.slot.held ≡ program.old.slot.held }
    ensures none { IfNone program.old.slot.held ((result ≡ no_program) × (queue.new ≡ queue.old)) }
    ensures given { IfSome program.old.slot.held (λ h. TakesLists queue.old queue.new h result) }
{
    match program.held_mut() {
        Some(held) => give_lists(queue, held),
        None => NO_PROGRAM,
    }
}

/// Takes the lists of a settings text in place of a program's. Nothing is verified.
#[unsafe(no_mangle)]
pub extern "C" fn laxonje_relist(alloc: Global, program: &mut XdpProgram, text: &[u8]) -> XdpVerdict
    ensures none { IfNone program.old.slot.held ((result ≡ verdict_of Fault.Empty) × (program.new.slot.held ≡ None)) }
    ensures kept { IfSome program.old.slot.held (λ _. IsSome program.new.slot.held) }
    ensures taken { IfSome program.old.slot.held (λ h. IfSome program.new.slot.held (λ n. TakesText text.now h n result)) }
{
    match program.held_mut() {
        Some(held) => take_text(alloc, held, text),
        None => XdpVerdict::from(Fault::Empty),
    }
}

/// Gives a queue the lists of a program in place of its own, between two turns. Nothing is verified or copied.
#[unsafe(no_mangle)]
pub extern "C" fn laxonje_queue_relist(queue: &mut XdpQueue, program: &mut XdpProgram) -> u32
    ensures held { program.new.slot.held ≡ program.old.slot.held }
    ensures no_queue { IfNone queue.old.slot.held ((result ≡ no_queue) × (queue.new.slot.held ≡ None)) }
    ensures kept { IfSome queue.old.slot.held (λ _. IsSome queue.new.slot.held) }
    ensures no_program { IfNone program.old.slot.held (IfSome queue.old.slot.held (λ q. IfSome queue.new.slot.held (λ r.
        (result ≡ no_program) × (r ≡ q)))) }
    ensures given { IfSome program.old.slot.held (λ h. IfSome queue.old.slot.held (λ q. IfSome queue.new.slot.held (λ r.
        TakesLists q r h result))) }
{
    match queue.held_mut() {
        Some(held) => give_held(held, program),
        None => NO_QUEUE,
    }
}
