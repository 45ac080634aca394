//! What the program answers.
ghost use Rattle.std.specs.Prelude.{◌≡◌, ◌≤◌, IfOk, IfErr, Some, length, option_map};
ghost use Rattle.bpf_note.specs.Shape.{most_maps};
ghost use Rattle.xdp_load.specs.ListedGiven.{listed_view};
ghost use Rattle.xdp_load.specs.ListedSound.{IsListedSound};
ghost use Rattle.xdp_load.specs.SetupSeen.{setup_view};
ghost use Rattle.xdp_load.specs.SpotSeen.{refused_seen};
ghost use Rattle.xdp_commands.specs.Answer.{AnswerTo, ExecAnswer, ExplainAnswer, FilterAnswer, InputAnswer, IsAnswer, PacketAnswer};
ghost use Rattle.xdp_commands.specs.Answer.{MayFailToRead, PairAnswer, PlacedAnswer, RefusedAnswer, RefusedTo, RewrittenAnswer};
ghost use Rattle.xdp_commands.specs.Answer.{RunAnswer, SettingsAnswer, SetupAnswer, TakesAtMost, TakesInput, words_refused};
ghost use Rattle.xdp_commands.specs.Answer.{checked_answer, executed_answer, hex_bytes, program_status, settings_refused};
ghost use Rattle.xdp_commands.specs.Help.{help_lines, version_line};
ghost use Rattle.xdp_commands.specs.Words as wanted;
ghost use Rattle.xdp_commands.specs.Seen.{said_of, wanted_of};

use crate::comparing_answer::beside_answer;
use crate::executing::{Accepted, check, execute, run};
use crate::explaining::{outcome_of, outcome_status, outcome_text};
use crate::filtering::filter;
use crate::help::{Topic, help_text, version_text};
use crate::input::read_settings;
use crate::lines::{checked_text, executed_text, filtered_text, ran_text, settings_text};
use crate::pair_lines::{paired_status, paired_text};
use crate::pairing::pair;
use crate::request::Request;
use crate::stop::Stop;
use bpf_insn::Refusal;
use bpf_vm::{Ended, PacketBuf, STACK_SIZE};
use hex::FromHexError;
use std::alloc::{AllocError, Global};
use std::io::Read;
use std::sync::Wait;
use std::thread::Threads;
use thread_pair::OnPass;
use xdp_load::{Listed, LoadError, Refused, Setup, TextFault, fault_text, load_beside};

/// A text that is printed, and the exit status.
#[derive(Drop)]
pub struct Answer {
    pub text: String,
    pub status: u8,
}

/// The answer to words that are refused.
fn words_refused(alloc: Global) -> Result<Answer, AllocError>
    ensures { IfOk result (λ a. said_of a ≡ words_refused) }
{
    let text = String::from_str(alloc, "words refused\n")?;
    Ok(Answer { text, status: 2 })
}

/// The status of a program that is accepted, or refused.
fn program_status<T>(outcome: &Result<T, Refusal>) -> u8
    ensures { result ≡ program_status outcome.now }
{
    match outcome {
        Ok(_) => 0,
        Err(_) => 1,
    }
}

/// The answer of a run or a refusal.
fn executed_answer(
    alloc: Global,
    executed: &Result<Ended<'_>, Refusal>,
) -> Result<Answer, AllocError>
    ensures { IfOk result (λ a. said_of a ≡ executed_answer executed.now) }
{
    let text = executed_text(alloc, executed)?;
    Ok(Answer {
        text,
        status: program_status(executed),
    })
}

/// The bytes of a hex word, none if it is refused.
fn hex_bytes(alloc: Global, word: &str) -> Result<Option<Vec<u8>>, AllocError>
    ensures { IfOk result (λ o. option_map (λ v. v.items) o ≡ hex_bytes word.now) }
{
    match hex::decode(alloc, word) {
        Ok(bytes) => Ok(Some(bytes)),
        Err(FromHexError::OutOfMemory) => Err(AllocError),
        Err(_) => Ok(None),
    }
}

/// The answer of a program's bytes on a packet's, which it may change.
fn packet_answer(alloc: Global, program: &[u8], packet: &mut [u8]) -> Result<Answer, AllocError>
    ensures { IfOk result (λ a. PacketAnswer program.now packet.old (said_of a)) }
{
    let mut stack = [0; STACK_SIZE];
    let Ok(packet) = PacketBuf::over(packet, &mut stack) else {
        return words_refused(alloc);
    };
    let executed = execute(alloc, program, packet);
    executed_answer(alloc, &executed)
}

/// The answer of `exec`.
fn exec_answer(alloc: Global, program: &str, packet: &str) -> Result<Answer, AllocError>
    ensures { IfOk result (λ a. ExecAnswer program.now packet.now (said_of a)) }
{
    let Some(program) = hex_bytes(alloc, program)? else {
        return words_refused(alloc);
    };
    let Some(mut packet) = hex_bytes(alloc, packet)? else {
        return words_refused(alloc);
    };
    packet_answer(alloc, program.as_slice(), &mut packet)
}

/// The answer of a check.
fn checked_answer(alloc: Global, checked: &Result<Accepted, Refusal>) -> Result<Answer, AllocError>
    ensures { IfOk result (λ a. said_of a ≡ checked_answer checked.now) }
{
    let text = checked_text(alloc, checked)?;
    Ok(Answer {
        text,
        status: program_status(checked),
    })
}

/// The answer to settings that are refused.
fn settings_refused(alloc: Global, fault: TextFault) -> Result<Answer, AllocError>
    ensures { IfOk result (λ a. said_of a ≡ settings_refused fault) }
{
    let text = settings_text(alloc, fault)?;
    Ok(Answer { text, status: 2 })
}

/// The answer to settings that are refused, with the line that says where, and what is allowed there.
fn placed_answer(alloc: Global, settings: &[u8], refused: &Refused) -> Result<Answer, AllocError>
    ensures { IfOk result (λ a. PlacedAnswer settings.now (refused_seen refused.now) (said_of a)) }
{
    let mut text = settings_text(alloc, TextFault::Refused(refused.fault))?;
    let line = fault_text(alloc, &refused.spot, settings)?;
    text.push_str(line.as_str())?;
    Ok(Answer { text, status: 2 })
}

/// A question about settings.
#[derive(Clone, Copy)]
enum Question {
    /// Asks whether the program is accepted.
    Check,
    /// Asks why the program is refused.
    Explain,
    /// Asks what the queues do in the steps of the script.
    Run,
    /// Asks what the program makes of the packets.
    Filter,
}

/// The answer to a setup whose program is checked.
fn checked_setup_answer(alloc: Global, setup: &Setup) -> Result<Answer, AllocError>
    requires { length setup.now.shapes.items ≤ most_maps }
    ensures { IfOk result (λ a. SetupAnswer (setup_view setup.now) (said_of a)) }
{
    let checked = check(alloc, setup.program.as_slice(), setup.shapes.as_slice());
    checked_answer(alloc, &checked)
}

/// The answer to a setup whose program is explained.
fn explain_answer(alloc: Global, setup: &Setup) -> Result<Answer, AllocError>
    requires { length setup.now.shapes.items ≤ most_maps }
    ensures { IfOk result (λ a. ExplainAnswer (setup_view setup.now) (said_of a)) }
{
    let outcome = outcome_of(alloc, setup.program.as_slice(), setup.shapes.as_slice())?;
    let text = outcome_text(
        alloc,
        setup.program.as_slice(),
        setup.names.as_slice(),
        setup.shapes.as_slice(),
        &outcome,
    )?;
    Ok(Answer {
        text,
        status: outcome_status(&outcome),
    })
}

/// The answer to a setup whose queues are run.
fn run_answer(alloc: Global, listed: &Listed) -> Result<Answer, AllocError>
    requires { IsListedSound (listed_view listed.now) }
    ensures { IfOk result (λ a. RunAnswer (listed_view listed.now) (said_of a)) }
{
    let ran = run(alloc, listed)?;
    let setup = &listed.setup;
    let text = ran_text(alloc, setup.names.as_slice(), setup.shapes.as_slice(), &ran)?;
    Ok(Answer {
        text,
        status: program_status(&ran),
    })
}

/// The answer to a setup whose program is run on its packets.
fn filter_answer(alloc: Global, listed: &Listed) -> Result<Answer, AllocError>
    requires { IsListedSound (listed_view listed.now) }
    ensures { IfOk result (λ a. FilterAnswer (listed_view listed.now) (said_of a)) }
{
    let filtered = filter(alloc, listed)?;
    let status = program_status(&filtered);
    let setup = &listed.setup;
    let text = filtered_text(
        alloc,
        setup.names.as_slice(),
        setup.shapes.as_slice(),
        filtered,
    )?;
    Ok(Answer { text, status })
}

/// The answer to a setup whose queues are run on threads.
fn pair_answer<T: Threads + Wait + Sync>(
    rt: &T,
    alloc: Global,
    listed: &Listed,
    host: OnPass,
    turns: u32,
) -> Result<Answer, AllocError>
    requires { IsListedSound (listed_view listed.now) }
    ensures { IfOk result (λ a. PairAnswer turns host (listed_view listed.now) (said_of a)) }
{
    let paired = pair(rt, alloc, listed, host, turns)?;
    let setup = &listed.setup;
    let text = paired_text(
        alloc,
        host,
        setup.names.as_slice(),
        setup.shapes.as_slice(),
        &paired,
    )?;
    Ok(Answer {
        text,
        status: paired_status(&paired),
    })
}

/// The answer to a setup.
fn setup_answer(alloc: Global, question: Question, listed: &Listed) -> Result<Answer, AllocError>
    requires { IsListedSound (listed_view listed.now) }
    ensures { IfOk result (λ a. AnswerTo question (listed_view listed.now) (said_of a)) }
{
    match question {
        Question::Check => checked_setup_answer(alloc, &listed.setup),
        Question::Explain => explain_answer(alloc, &listed.setup),
        Question::Run => run_answer(alloc, listed),
        Question::Filter => filter_answer(alloc, listed),
    }
}

/// The answer to settings with this fault.
fn fault_answer(
    alloc: Global,
    question: Question,
    settings: &[u8],
    refused: &Refused,
) -> Result<Answer, AllocError>
    ensures { IfOk result (λ a. RefusedTo question settings.now (refused_seen refused.now) (said_of a)) }
{
    match question {
        Question::Explain => placed_answer(alloc, settings, refused),
        _ => settings_refused(alloc, TextFault::Refused(refused.fault)),
    }
}

/// The answer to settings.
fn settings_answer(alloc: Global, question: Question, settings: &[u8]) -> Result<Answer, AllocError>
    ensures { IfOk result (λ a. SettingsAnswer (AnswerTo question) (RefusedTo question) settings.now (said_of a)) }
{
    match xdp_program::read_settings(alloc, settings) {
        Ok(listed) => setup_answer(alloc, question, &listed),
        Err(LoadError::Memory) => settings_refused(alloc, TextFault::Memory),
        Err(LoadError::Refused(refused)) => fault_answer(alloc, question, settings, &refused),
    }
}

/// The answer of `same`.
fn rewritten_answer(alloc: Global, settings: &[u8]) -> Result<Answer, AllocError>
    ensures { IfOk result (λ a. RewrittenAnswer settings.now (said_of a)) }
{
    match load_beside(alloc, settings) {
        Ok(beside) => beside_answer(alloc, beside),
        Err(LoadError::Memory) => settings_refused(alloc, TextFault::Memory),
        Err(LoadError::Refused(refused)) => {
            settings_refused(alloc, TextFault::Refused(refused.fault))
        }
    }
}

/// The answer of `pair`.
fn threads_answer<T: Threads + Wait + Sync>(
    rt: &T,
    alloc: Global,
    host: OnPass,
    turns: u32,
    settings: &[u8],
) -> Result<Answer, AllocError>
    ensures { IfOk result (λ a. SettingsAnswer (PairAnswer turns host) RefusedAnswer settings.now (said_of a)) }
{
    match xdp_program::read_settings(alloc, settings) {
        Ok(listed) => pair_answer(rt, alloc, &listed, host, turns),
        Err(LoadError::Memory) => settings_refused(alloc, TextFault::Memory),
        Err(LoadError::Refused(refused)) => {
            settings_refused(alloc, TextFault::Refused(refused.fault))
        }
    }
}

/// The answer to the settings that the input gives.
fn input_answer<R: Read>(alloc: Global, question: Question, input: &mut R) -> Result<Answer, Stop>
    ensures answer { IfOk result (λ a. InputAnswer question (R.remaining input.old) (R.remaining input.new) (said_of a)) }
    ensures takes { TakesAtMost 1048577 (R.remaining input.old) (R.remaining input.new) }
{
    let settings = read_settings(alloc, input)?;
    Ok(settings_answer(alloc, question, settings.as_slice())?)
}

/// The answer of `same` to the settings that the input gives.
fn input_same<R: Read>(alloc: Global, input: &mut R) -> Result<Answer, Stop>
    ensures answer { IfOk result (λ a. IsAnswer (Some wanted.same) (R.remaining input.old) (R.remaining input.new) (said_of a)) }
    ensures takes { TakesAtMost 1048577 (R.remaining input.old) (R.remaining input.new) }
{
    let settings = read_settings(alloc, input)?;
    Ok(rewritten_answer(alloc, settings.as_slice())?)
}

/// The answer of `pair` to the settings that the input gives.
fn input_pair<T: Threads + Wait + Sync, R: Read>(
    rt: &T,
    alloc: Global,
    host: OnPass,
    turns: u32,
    input: &mut R,
) -> Result<Answer, Stop>
    ensures answer { IfOk result (λ a. IsAnswer (Some (wanted.pair turns host)) (R.remaining input.old) (R.remaining input.new)
        (said_of a)) }
    ensures takes { TakesAtMost 1048577 (R.remaining input.old) (R.remaining input.new) }
{
    let settings = read_settings(alloc, input)?;
    Ok(threads_answer(rt, alloc, host, turns, settings.as_slice())?)
}

/// Returns the answer of `help`.
fn help_answer(alloc: Global, topic: Topic) -> Result<Answer, AllocError>
    ensures { IfOk result (λ a. said_of a ≡ (help_lines topic, 0)) }
{
    let text = help_text(alloc, topic)?;
    Ok(Answer { text, status: 0 })
}

/// Returns the answer of `version`.
fn version_answer(alloc: Global) -> Result<Answer, AllocError>
    ensures { IfOk result (λ a. said_of a ≡ (version_line, 0)) }
{
    let text = version_text(alloc)?;
    Ok(Answer { text, status: 0 })
}

/// The answer to what the words ask for, if they ask for anything.
pub fn answer_to<T: Threads + Wait + Sync, R: Read>(
    rt: &T,
    alloc: Global,
    request: Option<Request<'_>>,
    input: &mut R,
) -> Result<Answer, Stop>
    ensures answer { IfOk result (λ a. IsAnswer (option_map wanted_of request.entry) (R.remaining input.old)
        (R.remaining input.new) (said_of a)) }
    ensures takes { TakesInput (option_map wanted_of request.entry) (R.remaining input.old) (R.remaining input.new) }
    ensures reads { IfErr result (λ e. e ≡ Stop.Read → MayFailToRead (option_map wanted_of request.entry)) }
{
    match request {
        None => Ok(words_refused(alloc)?),
        Some(Request::Exec { program, packet }) => Ok(exec_answer(alloc, program, packet)?),
        Some(Request::Check) => input_answer(alloc, Question::Check, input),
        Some(Request::Explain) => input_answer(alloc, Question::Explain, input),
        Some(Request::Same) => input_same(alloc, input),
        Some(Request::Run) => input_answer(alloc, Question::Run, input),
        Some(Request::Filter) => input_answer(alloc, Question::Filter, input),
        Some(Request::Pair { turns, host }) => input_pair(rt, alloc, host, turns, input),
        Some(Request::Help(topic)) => Ok(help_answer(alloc, topic)?),
        Some(Request::Version) => Ok(version_answer(alloc)?),
    }
}
