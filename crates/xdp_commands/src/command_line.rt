//! The command line, as `clap` sees it.
ghost use Rattle.std.specs.Prelude.{◌≡◌, IfOk, false};
ghost use Rattle.clap.specs.Words.{app_of};
ghost use Rattle.clap.specs.declared.builder.command.Command.TheViews.{out-Command};
ghost use Rattle.xdp_commands.specs.Words.{bare_app, exec_app, help_app, pair_app, program_app, settings_app, single_app};

use clap::{Arg, ArgAction, Command, value_parser};
use std::alloc::{AllocError, Global};

/// `exec PROGRAM PACKET`.
fn exec_command<'a>(alloc: Global) -> Result<Command<'a>, AllocError>
    ensures { IfOk result (λ c. (app_of c ≡ exec_app) × ((out-Command c).has_globals ≡ false)) }
{
    let program = Arg::new(alloc, "program").required(true);
    let packet = Arg::new(alloc, "packet").required(true);
    Command::new(alloc, "exec").arg(program)?.arg(packet)
}

/// The most turns that each queue makes, if no word says it.
const TURNS: &str = "100000";

/// The greatest number of turns that can be asked for.
const MOST_TURNS: i64 = 1_000_000;

/// `pair --turns N --answer`.
fn pair_command<'a>(alloc: Global) -> Result<Command<'a>, AllocError>
    ensures { IfOk result (λ c. (app_of c ≡ pair_app) × ((out-Command c).has_globals ≡ false)) }
{
    let turns = Arg::new(alloc, "turns")
        .long("turns")
        .default_value(TURNS)
        .value_parser(value_parser!(u32).range(1..=MOST_TURNS));
    let answer = Arg::new(alloc, "answer")
        .long("answer")
        .action(ArgAction::SetTrue);
    Command::new(alloc, "pair").arg(turns)?.arg(answer)
}

/// `help COMMAND`, the word left out or not.
fn help_command<'a>(alloc: Global) -> Result<Command<'a>, AllocError>
    ensures { IfOk result (λ c. (app_of c ≡ help_app) × ((out-Command c).has_globals ≡ false)) }
{
    Command::new(alloc, "help").arg(Arg::new(alloc, "command"))
}

/// The program's own command: `help` is a subcommand of its own.
fn bare_command<'a>(alloc: Global) -> Command<'a>
    ensures { (app_of result ≡ bare_app) × ((out-Command result).has_globals ≡ false) }
{
    Command::new(alloc, "xdpbox").disable_help_subcommand(true)
}

/// The commands that pass no packets of settings to a program.
#[tactic(auto, unfolding(crate::specs::Words::single_app))]
fn single_commands<'a>(alloc: Global) -> Result<Command<'a>, AllocError>
    ensures { IfOk result (λ c. app_of c ≡ single_app) }
{
    let exec = exec_command(alloc)?;
    let check = Command::new(alloc, "check");
    let explain = Command::new(alloc, "explain");
    let same = Command::new(alloc, "same");
    bare_command(alloc)
        .subcommand(exec)?
        .subcommand(check)?
        .subcommand(explain)?
        .subcommand(same)
}

/// These, and the commands that pass packets to the program on one thread.
#[tactic(auto, unfolding(crate::specs::Words::settings_app))]
fn settings_commands<'a>(alloc: Global) -> Result<Command<'a>, AllocError>
    ensures { IfOk result (λ c. app_of c ≡ settings_app) }
{
    let run = Command::new(alloc, "run");
    let filter = Command::new(alloc, "filter");
    single_commands(alloc)?.subcommand(run)?.subcommand(filter)
}

/// The program's command.
#[tactic(auto, unfolding(crate::specs::Words::program_app))]
pub fn program_command<'a>(alloc: Global) -> Result<Command<'a>, AllocError>
    ensures { IfOk result (λ c. app_of c ≡ program_app) }
{
    let pair = pair_command(alloc)?;
    let help = help_command(alloc)?;
    let version = Command::new(alloc, "version");
    settings_commands(alloc)?
        .subcommand(pair)?
        .subcommand(help)?
        .subcommand(version)
}
