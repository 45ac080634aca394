//! What `help` and `version` print.
ghost use Rattle.std.specs.Prelude.{◌≡◌, IfOk, string_bytes};
ghost use Rattle.xdp_commands.specs.Help.{help_lines, version_line};

use std::alloc::{AllocError, Global};

/// A topic of help.
#[derive(Clone, Copy)]
pub enum Topic {
    /// All commands.
    Commands,
    Exec,
    Check,
    Explain,
    Same,
    Filter,
    Run,
    Pair,
    Help,
    Version,
}

/// Returns the lines on all commands.
fn commands_lines() -> &'static str
    ensures { result.now ≡ help_lines Topic.Commands }
{
    "xdpbox exec PROGRAM PACKET: runs a program once on a packet, both in hex\n\
     xdpbox check < SETTINGS: verifies the program of the settings\n\
     xdpbox explain < SETTINGS: prints its listing, and why it is refused\n\
     xdpbox same < SETTINGS: compares it with the program that it was made from\n\
     xdpbox filter < SETTINGS: runs it on the packets of the settings\n\
     xdpbox run < SETTINGS: runs it in queues of netback, by a script\n\
     xdpbox pair [--turns N] [--answer] < SETTINGS: runs it between netback and netfront, on threads\n\
     xdpbox help [COMMAND]: prints these lines, or what one command prints and its exit statuses\n\
     xdpbox version: prints the version\n\
     exit status: 0 done, 1 refused, 2 words or settings refused, 3 out of memory, 4 a read or a write failed\n"
}

/// The lines on `pair`.
const PAIR: &str = "xdpbox pair [--turns N] [--answer] < SETTINGS\n\
     N is 1 to 1000000 turns of each queue, 100000 if it isn't given; --answer sends passed packets back.\n\
     Prints what each queue did, then each counter that isn't 0; 1: the program is refused, 4: also if a thread or a mapping fails.\n";

/// Returns the lines on a topic.
fn help_lines(topic: Topic) -> &'static str
    ensures { result.now ≡ help_lines topic }
{
    match topic {
        Topic::Commands => commands_lines(),
        Topic::Exec => {
            "xdpbox exec PROGRAM PACKET\n\
             PROGRAM has eight bytes a slot and no maps, PACKET 0 to 65535 bytes; both are hex without blanks.\n\
             Prints the action and the packet as the program left it; 1: the program is refused.\n"
        }
        Topic::Check => {
            "xdpbox check < SETTINGS\n\
             Prints how many instructions and slots the program has; 1: it is refused, with the cause and the slot.\n"
        }
        Topic::Explain => {
            "xdpbox explain < SETTINGS\n\
             Prints the listing and the line of check, for a refused program what was known there and what to write instead; \
             1: it is refused.\n"
        }
        Topic::Same => {
            "xdpbox same < SETTINGS\n\
             The settings have, in a table original, the first program, or an object and the name of its function.\n\
             Prints same, same by counts, same alone or not shown; 1: not shown, or one of both is refused.\n"
        }
        Topic::Filter => {
            "xdpbox filter < SETTINGS\n\
             Prints a line for each run on a packet, then each counter that isn't 0; 1: the program is refused.\n"
        }
        Topic::Run => {
            "xdpbox run < SETTINGS\n\
             Prints a line for each turn of a queue, then each counter that isn't 0; 1: the program is refused.\n"
        }
        Topic::Pair => PAIR,
        Topic::Help => {
            "xdpbox help [COMMAND]\n\
             Prints the lines on a command, or on all; 2: there is no such command.\n"
        }
        Topic::Version => {
            "xdpbox version\n\
             Prints the version of the sources.\n"
        }
    }
}

/// The line of `version`.
const VERSION: &str = "xdpbox 4.0.0\n";

/// Returns the text of `help`.
pub fn help_text(alloc: Global, topic: Topic) -> Result<String, AllocError>
    ensures { IfOk result (λ s. string_bytes s ≡ help_lines topic) }
{
    String::from_str(alloc, help_lines(topic))
}

/// Returns the text of `version`.
pub fn version_text(alloc: Global) -> Result<String, AllocError>
    ensures { IfOk result (λ s. string_bytes s ≡ version_line) }
{
    String::from_str(alloc, VERSION)
}
