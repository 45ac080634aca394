//! `outside_rows`: answers the questions of standard input, one per line, by this product's functions. What it has to
//! write, the file `stdout`, is what Xen's headers, LLVM's assembler and Linux's interpreter answered.
//!
//! - `constants`, `instructions`, `grants`, `lists`, `parts`, `rings`, `slots`: questions by their matter; `numbers`: the numbers in one
#![tactic(auto)]

mod constants;
mod grants;
mod instructions;
mod lists;
mod numbers;
mod parts;
mod rings;
mod slots;

use std::alloc::{AllocError, Global};
use std::io;

/// The answer to a question, a word for what is asked and then the numbers or bytes that it is asked of, if it is one.
fn answer(alloc: Global, question: &str) -> Result<Option<String>, AllocError> {
    let (kind, rest) = question.split_once(' ').unwrap_or((question, ""));
    if let Some(text) = rings::answer(alloc, kind, rest)? {
        return Ok(Some(text));
    }
    if let Some(text) = slots::answer(alloc, kind, rest)? {
        return Ok(Some(text));
    }
    if let Some(text) = grants::answer(alloc, kind, rest)? {
        return Ok(Some(text));
    }
    if let Some(text) = lists::answer(alloc, kind, rest)? {
        return Ok(Some(text));
    }
    if let Some(text) = constants::answer(alloc, kind, rest)? {
        return Ok(Some(text));
    }
    if let Some(text) = parts::answer(alloc, kind, rest)? {
        return Ok(Some(text));
    }
    instructions::answer(alloc, kind, rest)
}

fn main(rt: HostRuntime) -> io::Result<()> {
    for line in rt.lines(rt.alloc()) {
        let line = line?;
        if line.starts_with('#') {
            println!(rt; "{line}")?;
            continue;
        }
        match answer(rt.alloc(), line.as_str())? {
            Some(text) => println!(rt; "{line} = {text}")?,
            None => println!(rt; "{line} is no question")?,
        }
    }
    Ok(())
}
