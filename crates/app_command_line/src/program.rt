//! The commands of the program, as `clap` receives them.
ghost use Rattle.std.specs.Prelude.{◌≡◌, false, fold, IfOk};
ghost use Rattle.clap.specs.Words.{app_of, new_app};
ghost use Rattle.clap.specs.declared.builder.Command.TheViews.{out-Command};
ghost use Rattle.app_command_line.specs.CommandLine.{check, command_line, drive, events, explain, judge, refute, replay, top};
ghost use Rattle.app_command_line.specs.Steps.Arguments.{app_named, with_argument, with_command};

use crate::abouts;
use crate::arguments::{
    Argument, all_argument, every_argument, least_reads_argument, progress_argument,
    seals_argument, stop_argument, why_argument, workers_argument,
};
use crate::help::{
    EVENTS, EVENTS_REASON, HTML, LINES, LONG, LONG_PATTERN, LONG_REASON, NAMES, NOTES, SKIP_BLANK,
    SUMMARY, VERSION,
};
use crate::settings::CommandName;
use clap::Command;
use std::alloc::{AllocError, Global};

/// The command line that the program takes.
pub fn program<'a>(alloc: Global) -> Result<Command<'a>, AllocError>
    ensures { IfOk result (λ command. app_of command ≡ command_line) }
{
    with_commands(
        alloc,
        bare_program(alloc),
        &[
            CommandName::Judge,
            CommandName::Check,
            CommandName::Explain,
            CommandName::Refute,
            CommandName::Replay,
            CommandName::Drive,
            CommandName::Events,
        ],
    )
}

// The program without commands.
fn bare_program<'a>(alloc: Global) -> Command<'a>
    ensures { app_of result ≡ top }
{
    plain_command(alloc, "causal_judge", abouts::PROGRAM)
        .version(VERSION)
        .subcommand_required(true)
}

// The program with these commands too.
fn with_commands<'a>(
    alloc: Global,
    program: Command<'a>,
    names: &[CommandName],
) -> Result<Command<'a>, AllocError>
    ensures { IfOk result (λ whole. app_of whole ≡ fold with_command (app_of program.entry) names.now) }
{
    match names {
        [] => Ok(program),
        [name, further @ ..] => match with_command(alloc, program, *name) {
            Ok(next) => with_commands(alloc, next, further),
            Err(error) => Err(error),
        },
    }
}

// The program with this command too.
fn with_command<'a>(
    alloc: Global,
    program: Command<'a>,
    name: CommandName,
) -> Result<Command<'a>, AllocError>
    ensures { IfOk result (λ whole. app_of whole ≡ with_command (app_of program.entry) name) }
{
    match command_for(alloc, name) {
        Ok(command) => program.subcommand(command),
        Err(error) => {
            drop(program);
            Err(error)
        }
    }
}

// The command of this name.
fn command_for<'a>(alloc: Global, name: CommandName) -> Result<Command<'a>, AllocError>
    ensures app { IfOk result (λ command. app_of command ≡ app_named name) }
    ensures local { IfOk result (λ command. (out-Command command).has_globals ≡ false) }
{
    match name {
        CommandName::Judge => judge_command(alloc),
        CommandName::Check => check_command(alloc),
        CommandName::Explain => explain_command(alloc),
        CommandName::Refute => refute_command(alloc),
        CommandName::Replay => replay_command(alloc),
        CommandName::Drive => drive_command(alloc),
        CommandName::Events => events_command(alloc),
    }
}

// A command with these arguments, and with what help says of it first.
fn whole_command<'a>(
    alloc: Global,
    name: &'a str,
    about: &'a str,
    arguments: &[Argument<'a>],
) -> Result<Command<'a>, AllocError>
    ensures app { IfOk result (λ whole. app_of whole ≡ fold with_argument (new_app name.now) arguments.now) }
    ensures local { IfOk result (λ whole. (out-Command whole).has_globals ≡ false) }
{
    with_arguments(alloc, plain_command(alloc, name, about), arguments)
}

// A command without arguments, with what help says of it first.
fn plain_command<'a>(alloc: Global, name: &'a str, about: &'a str) -> Command<'a>
    ensures app { app_of result ≡ new_app name.now }
    ensures local { (out-Command result).has_globals ≡ false }
{
    Command::new(alloc, name).about(about)
}

// The command with these arguments too.
fn with_arguments<'a>(
    alloc: Global,
    command: Command<'a>,
    arguments: &[Argument<'a>],
) -> Result<Command<'a>, AllocError>
    requires local { (out-Command command).has_globals ≡ false }
    ensures app { IfOk result (λ whole. app_of whole ≡ fold with_argument (app_of command.entry) arguments.now) }
    ensures local { IfOk result (λ whole. (out-Command whole).has_globals ≡ false) }
{
    match arguments {
        [] => Ok(command),
        [argument, further @ ..] => match with_argument(alloc, command, argument) {
            Ok(next) => with_arguments(alloc, next, further),
            Err(error) => Err(error),
        },
    }
}

// The command with this argument too.
fn with_argument<'a>(
    alloc: Global,
    command: Command<'a>,
    argument: &Argument<'a>,
) -> Result<Command<'a>, AllocError>
    requires local { (out-Command command).has_globals ≡ false }
    ensures app { IfOk result (λ whole. app_of whole ≡ with_argument (app_of command.entry) argument.now) }
    ensures local { IfOk result (λ whole. (out-Command whole).has_globals ≡ false) }
{
    command.arg(argument.for_clap(alloc))
}

fn judge_command<'a>(alloc: Global) -> Result<Command<'a>, AllocError>
    ensures app { IfOk result (λ command. app_of command ≡ judge) }
    ensures local { IfOk result (λ command. (out-Command command).has_globals ≡ false) }
{
    whole_command(
        alloc,
        "judge",
        abouts::JUDGE,
        &[
            workers_argument(),
            Argument::Expect,
            Argument::Flag("lines", LINES),
            Argument::Flag("skip-blank", SKIP_BLANK),
            Argument::Flag("long", LONG),
            Argument::Flag("events", EVENTS),
            every_argument(),
            Argument::Flag("summary", SUMMARY),
            least_reads_argument(),
            Argument::Color,
            why_argument(),
            progress_argument(),
            Argument::Files,
        ],
    )
}

fn check_command<'a>(alloc: Global) -> Result<Command<'a>, AllocError>
    ensures app { IfOk result (λ command. app_of command ≡ check) }
    ensures local { IfOk result (λ command. (out-Command command).has_globals ≡ false) }
{
    whole_command(
        alloc,
        "check",
        abouts::CHECK,
        &[
            workers_argument(),
            why_argument(),
            progress_argument(),
            Argument::Files,
        ],
    )
}

fn explain_command<'a>(alloc: Global) -> Result<Command<'a>, AllocError>
    ensures app { IfOk result (λ command. app_of command ≡ explain) }
    ensures local { IfOk result (λ command. (out-Command command).has_globals ≡ false) }
{
    whole_command(
        alloc,
        "explain",
        abouts::EXPLAIN,
        &[
            Argument::Flag("json", "Shows it as JSON"),
            Argument::Flag(
                "certificates",
                "Shows with --json the certificate of each criterion that is met",
            ),
            Argument::Flag("svg", "Draws it as one picture"),
            Argument::Flag("html", HTML),
            Argument::Flag("long", LONG_REASON),
            all_argument(),
            Argument::Flag("events", EVENTS_REASON),
            Argument::Output,
            Argument::Color,
            why_argument(),
            progress_argument(),
            Argument::Files,
        ],
    )
}

fn refute_command<'a>(alloc: Global) -> Result<Command<'a>, AllocError>
    ensures app { IfOk result (λ command. app_of command ≡ refute) }
    ensures local { IfOk result (λ command. (out-Command command).has_globals ≡ false) }
{
    whole_command(
        alloc,
        "refute",
        abouts::REFUTE,
        &[
            Argument::Flag("long", LONG_PATTERN),
            why_argument(),
            progress_argument(),
            Argument::Files,
        ],
    )
}

fn replay_command<'a>(alloc: Global) -> Result<Command<'a>, AllocError>
    ensures app { IfOk result (λ command. app_of command ≡ replay) }
    ensures local { IfOk result (λ command. (out-Command command).has_globals ≡ false) }
{
    whole_command(
        alloc,
        "replay",
        abouts::REPLAY,
        &[why_argument(), progress_argument(), Argument::Files],
    )
}

fn events_command<'a>(alloc: Global) -> Result<Command<'a>, AllocError>
    ensures app { IfOk result (λ command. app_of command ≡ events) }
    ensures local { IfOk result (λ command. (out-Command command).has_globals ≡ false) }
{
    whole_command(
        alloc,
        "events",
        abouts::EVENTS,
        &[
            Argument::Flag("names", NAMES),
            Argument::Flag("notes", NOTES),
            progress_argument(),
            Argument::Files,
        ],
    )
}

fn drive_command<'a>(alloc: Global) -> Result<Command<'a>, AllocError>
    ensures app { IfOk result (λ command. app_of command ≡ drive) }
    ensures local { IfOk result (λ command. (out-Command command).has_globals ≡ false) }
{
    whole_command(
        alloc,
        "drive",
        abouts::DRIVE,
        &[
            Argument::Store,
            Argument::Flag(
                "eager",
                "Replicas take updates in at once, whatever they depend on",
            ),
            seals_argument(),
            workers_argument(),
            stop_argument(),
            why_argument(),
            progress_argument(),
            Argument::Files,
        ],
    )
}
