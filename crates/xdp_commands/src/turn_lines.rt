//! The lines of the turns of a run.
ghost use Rattle.std.specs.Prelude.{◌≡◌, ◌++◌, IfOk, OnOk, string_bytes};
ghost use Rattle.xdp_commands.specs.TurnLines.{answered_text, kept_text, queues_text, turn_text, turns_text};

use std::alloc::{AllocError, Global};
use xdp_world::Kept;

/// The end of the line of a turn that answered.
fn answered_text(alloc: Global, slots: u32, ops: u32) -> Result<String, AllocError>
    ensures { IfOk result (λ s. string_bytes s ≡ answered_text slots ops) }
{
    format!(in alloc; " slots {slots} operations {ops}\n")
}

/// Returns what a line says of a turn.
fn kept_text(alloc: Global, kept: &Kept) -> Result<String, AllocError>
    ensures { IfOk result (λ s. string_bytes s ≡ kept_text kept.now) }
{
    match kept {
        Kept::Idle => String::from_str(alloc, " idle\n"),
        Kept::Ran {
            action,
            number: _,
            packet,
            ops,
            slots,
        } => {
            let name = action.name();
            let length = packet.len();
            let packet = hex::encode(alloc, packet.as_slice())?;
            let answered = answered_text(alloc, *slots, *ops)?;
            format!(in alloc; " {name} {length} {packet}{answered}")
        }
        Kept::Refused { cause, ops, slots } => {
            let number = cause.number();
            let answered = answered_text(alloc, *slots, *ops)?;
            format!(in alloc; " refused {number}{answered}")
        }
        Kept::Halted { cause } => {
            let number = cause.number();
            format!(in alloc; " halted {number}\n")
        }
    }
}

fn turn_text(alloc: Global, queue: usize, turn: usize, kept: &Kept) -> Result<String, AllocError>
    ensures { IfOk result (λ s. string_bytes s ≡ turn_text queue turn kept.now) }
{
    let kept = kept_text(alloc, kept)?;
    format!(in alloc; "queue {queue} turn {turn}{kept}")
}

/// Adds the lines of a queue's turns.
fn add_turns(
    alloc: Global,
    text: &mut String,
    queue: usize,
    turns: &[Kept],
) -> Result<(), AllocError>
    ensures { OnOk result (string_bytes text.new ≡ string_bytes text.old ++ turns_text queue 1 turns.now) }
{
    let mut turn = 1usize;
    for kept in turns {
        let line = turn_text(alloc, queue, turn, kept)?;
        text.push_str(line.as_str())?;
        turn += 1;
    }
    Ok(())
}

/// Adds the lines of all queues' turns.
pub fn add_queues(alloc: Global, text: &mut String, queues: &[Vec<Kept>]) -> Result<(), AllocError>
    ensures { OnOk result (string_bytes text.new ≡ string_bytes text.old ++ queues_text 0 queues.now) }
{
    let mut queue = 0usize;
    for turns in queues {
        add_turns(alloc, text, queue, turns.as_slice())?;
        queue += 1;
    }
    Ok(())
}
