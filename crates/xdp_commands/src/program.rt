//! A call of the program.
ghost use Rattle.std.specs.Prelude.{◌≡◌, IfOk, IfErr, map};
ghost use Rattle.xdp_commands.specs.Words.{wanted_of_words};
ghost use Rattle.xdp_commands.specs.Answer.{EndsCall, IsAnswer, MayFailToRead, Prints, TakesInput, memory_wanted};
ghost use Rattle.xdp_commands.specs.Seen.{said_of};

use crate::answer::{Answer, answer_to};
use crate::output::{FAILED, say};
use crate::request::read_words;
use crate::stop::Stop;
use std::alloc::Global;
use std::convert::AsStr;
use std::io::{Read, Write};
use std::sync::Wait;
use std::thread::Threads;

/// The answer to the words.
fn answer_words<S: AsStr, T: Threads + Wait + Sync, R: Read>(
    rt: &T,
    alloc: Global,
    words: &[S],
    input: &mut R,
) -> Result<Answer, Stop>
    ensures answer { IfOk result (λ a. IsAnswer (wanted_of_words (map S.text words.entry.now)) (R.remaining input.old)
        (R.remaining input.new) (said_of a)) }
    ensures takes { TakesInput (wanted_of_words (map S.text words.entry.now)) (R.remaining input.old) (R.remaining input.new) }
    ensures reads { IfErr result (λ e. e ≡ Stop.Read → MayFailToRead (wanted_of_words (map S.text words.entry.now))) }
{
    let request = read_words(alloc, words)?;
    answer_to(rt, alloc, request, input)
}

/// Says that memory ran out, and gives the status.
pub fn print_memory<W: Write>(output: &mut W) -> u8
    ensures { Prints (W.contents output.old) (W.contents output.new) memory_wanted result }
{
    say(output, "memory\n", 3)
}

/// Does what the words ask for, the first of them being the program's own name, and gives the exit status: 0 done,
/// 1 the program is refused, 2 the words or the settings are, 3 memory ran out, 4 a read, a write, a mapping or the start of
/// a thread failed. `pair` alone starts threads and waits.
pub fn run_words<S: AsStr, T: Threads + Wait + Sync, R: Read, W: Write>(
    rt: &T,
    alloc: Global,
    words: &[S],
    input: &mut R,
    output: &mut W,
) -> u8
    ensures answered { EndsCall (wanted_of_words (map S.text words.entry.now)) (R.remaining input.old) (R.remaining input.new)
        (W.contents output.old) (W.contents output.new) result }
    ensures takes { TakesInput (wanted_of_words (map S.text words.entry.now)) (R.remaining input.old) (R.remaining input.new) }
{
    match answer_words(rt, alloc, words, input) {
        Ok(answer) => say(output, answer.text.as_str(), answer.status),
        Err(Stop::Memory) => print_memory(output),
        Err(Stop::Read) => FAILED,
    }
}
