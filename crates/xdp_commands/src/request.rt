//! What the words of a call ask for.
ghost use Rattle.std.specs.Prelude.{◌≡◌, ◌↔◌, IfOk, IsTrue, codes, map, option_map, option_and_then};
ghost use Rattle.clap.specs.Words.{first_of, found_of, kind_of, one_of, rows_of, subcommand_rows_of};
ghost use Rattle.xdp_commands.specs.Words.{exec_of, help_of, host_of, pair_of, topic_of, turns_number, wanted_by, wanted_of_words};
ghost use Rattle.xdp_commands.specs.Seen.{wanted_of};

use crate::command_line::program_command;
use crate::help::Topic;
use clap::error::ErrorKind;
use clap::{ArgMatches, Error};
use std::alloc::{AllocError, Global};
use std::convert::AsStr;
use thread_pair::OnPass;

/// The request of a call.
#[derive(Clone, Copy)]
pub enum Request<'a> {
    /// A run of a program on a packet, both in hex.
    Exec { program: &'a str, packet: &'a str },
    /// Asks whether the program of the settings is accepted.
    Check,
    /// Asks why the program of the settings is refused.
    Explain,
    /// Asks whether the program of the settings has the runs of the one that it was made of.
    Same,
    /// Asks what the queues of the settings do in the steps of their script.
    Run,
    /// Asks what the program of the settings makes of their packets.
    Filter,
    /// Asks what the queues of the settings do on threads, in at most `turns` turns each, beside this host.
    Pair { turns: u32, host: OnPass },
    /// The lines on a command, or on all.
    Help(Topic),
    /// The version.
    Version,
}

/// The word of a positional.
fn word_at<'a>(matches: &ArgMatches<'a>, id: &str) -> Option<&'a str>
    ensures { option_map (λ w. w.now) result ≡ first_of id.now (rows_of (found_of matches.now)) }
{
    matches.get_str(id)
}

/// The number that was found for `--turns`.
fn turns_in(matches: &ArgMatches<'_>) -> Option<u32>
    ensures { result ≡ option_and_then turns_number (one_of (codes "turns") (rows_of (found_of matches.now))) }
{
    matches.get_one("turns")
}

/// The two words of `exec`.
fn exec_in<'a>(matches: &ArgMatches<'a>) -> Option<Request<'a>>
    ensures { option_map wanted_of result ≡ exec_of (rows_of (found_of matches.now)) }
{
    let program = word_at(matches, "program")?;
    let packet = word_at(matches, "packet")?;
    Some(Request::Exec { program, packet })
}

/// Returns what the host does: it answers if the flag was found.
fn host_in(matches: &ArgMatches<'_>) -> OnPass
    ensures { result ≡ host_of (rows_of (found_of matches.now)) }
{
    match word_at(matches, "answer") {
        Some(word) if word == "true" => OnPass::Answers,
        _ => OnPass::Takes,
    }
}

/// The number of turns of `pair`, and what the host does.
fn pair_in<'a>(matches: &ArgMatches<'a>) -> Option<Request<'a>>
    ensures { option_map wanted_of result ≡ pair_of (rows_of (found_of matches.now)) }
{
    let turns = turns_in(matches)?;
    let host = host_in(matches);
    Some(Request::Pair { turns, host })
}

/// Returns what help is about, by a command's name.
fn topic_of(name: &str) -> Option<Topic>
    ensures { result ≡ topic_of name.now }
{
    if name == "exec" {
        return Some(Topic::Exec);
    }
    if name == "check" {
        return Some(Topic::Check);
    }
    if name == "explain" {
        return Some(Topic::Explain);
    }
    if name == "same" {
        return Some(Topic::Same);
    }
    if name == "filter" {
        return Some(Topic::Filter);
    }
    if name == "run" {
        return Some(Topic::Run);
    }
    if name == "pair" {
        return Some(Topic::Pair);
    }
    if name == "help" {
        return Some(Topic::Help);
    }
    if name == "version" {
        return Some(Topic::Version);
    }
    None
}

/// Returns the command that help was asked about, or all of them.
fn help_in<'a>(matches: &ArgMatches<'a>) -> Option<Request<'a>>
    ensures { option_map wanted_of result ≡ help_of (rows_of (found_of matches.now)) }
{
    match word_at(matches, "command") {
        None => Some(Request::Help(Topic::Commands)),
        Some(name) => Some(Request::Help(topic_of(name)?)),
    }
}

/// Returns what the matches ask for.
fn request_in<'a>(matches: &ArgMatches<'a>) -> Option<Request<'a>>
    ensures { option_map wanted_of result ≡ option_and_then wanted_by (subcommand_rows_of matches.now) }
{
    let (name, inner) = matches.subcommand()?;
    if name == "exec" {
        return exec_in(inner);
    }
    if name == "check" {
        return Some(Request::Check);
    }
    if name == "explain" {
        return Some(Request::Explain);
    }
    if name == "same" {
        return Some(Request::Same);
    }
    if name == "run" {
        return Some(Request::Run);
    }
    if name == "filter" {
        return Some(Request::Filter);
    }
    if name == "pair" {
        return pair_in(inner);
    }
    if name == "help" {
        return help_in(inner);
    }
    if name == "version" {
        return Some(Request::Version);
    }
    None
}

/// Returns whether memory ran out.
fn is_memory(error: &Error) -> bool
    ensures { IsTrue result ↔ (kind_of error.now ≡ ErrorKind.OutOfMemory) }
{
    error.kind() == ErrorKind::OutOfMemory
}

/// Returns what the words ask for, the first of them being the program's own name; nothing if the command line refuses them.
pub fn read_words<'a, S: AsStr>(
    alloc: Global,
    words: &'a [S],
) -> Result<Option<Request<'a>>, AllocError>
    ensures { IfOk result (λ r. option_map wanted_of r ≡ wanted_of_words (map S.text words.entry.now)) }
{
    let command = program_command(alloc)?;
    match command.try_get_matches_from(words) {
        Ok(matches) => Ok(request_in(&matches)),
        Err(error) => {
            if is_memory(&error) {
                Err(AllocError)
            } else {
                Ok(None)
            }
        }
    }
}
