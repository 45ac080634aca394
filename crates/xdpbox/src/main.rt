//! `xdpbox`: checks a BPF program, or runs it on a packet or in queues, and prints how that ended.
#![tactic(auto)]

use std::process::ExitCode;
use std::{env, io};
use xdp_commands::{print_memory, run_words};

/// The words of the command line, or no words if one of them isn't UTF-8; nothing if memory ran out.
fn words_of(rt: &HostRuntime) -> Option<Vec<String>> {
    match env::args(rt) {
        Ok(args) => args.collect(rt.alloc()).ok(),
        Err(error) if error.kind() == io::ErrorKind::OutOfMemory => None,
        Err(_) => Some(Vec::new(rt.alloc())),
    }
}

fn main(rt: HostRuntime) -> ExitCode {
    let mut input = rt.reader();
    let mut output = io::writer(&rt);
    ExitCode::from(match words_of(&rt) {
        Some(words) => run_words(&rt, rt.alloc(), words.as_slice(), &mut input, &mut output),
        None => print_memory(&mut output),
    })
}
