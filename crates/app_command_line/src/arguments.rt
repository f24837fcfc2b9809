//! The options of commands, as plain data and as `clap` receives them.
ghost use Rattle.std.specs.Prelude.{◌≡◌, ◌-◌, codes, false};
ghost use Rattle.clap.specs.Words.{rule_of};
ghost use Rattle.app_command_line.specs.CommandLine.{all, color, every, expect, files, flag, least_reads};
ghost use Rattle.app_command_line.specs.CommandLine.{number_option, output, progress, store, why, workers};
ghost use Rattle.app_command_line.specs.Steps.Arguments.{rule_of_argument};

use crate::help::{COLOR, EVERY, FILES, LEAST_READS, OUTPUT, PROGRESS, WHY};
use app_orders::{MAX_EVERY, MAX_LEAST_READS, MAX_LISTED, MAX_SEALS};
use clap::builder::ValueParser;
use clap::{Arg, ArgAction};
use judge_workers::MAX_WORKERS;
use model_history::MAX_SESSIONS;
use std::alloc::Global;

/// An argument or an option of a command.
#[derive(Clone, Copy)]
pub enum Argument<'a> {
    /// The name of a store.
    Store,
    /// The criteria that are expected to be met.
    Expect,
    /// Whether lines are coloured.
    Color,
    /// The file that the answer goes to.
    Output,
    /// The files of the input.
    Files,
    /// An option that has no value: its name, and what help says of it.
    Flag(&'a str, &'a str),
    /// An option whose value is a number: its name, the name of its value, the least and the most number, and what help says of it.
    Number(&'a str, &'a str, u64, u64, &'a str),
}

impl<'a> Argument<'a> {
    /// The argument, as `clap` receives it.
    pub fn for_clap(&self, alloc: Global) -> Arg<'a>
        ensures rule { rule_of result ≡ rule_of_argument self.now }
        ensures local { result.global ≡ false }
    {
        match *self {
            Argument::Store => store_argument(alloc),
            Argument::Expect => expect_option(alloc),
            Argument::Color => color_option(alloc),
            Argument::Output => output_option(alloc),
            Argument::Files => files_argument(alloc),
            Argument::Flag(name, help) => flag_option(alloc, name, help),
            Argument::Number(name, value, least, most, help) => {
                number_option(alloc, name, value, least, most, help)
            }
        }
    }
}

/// How many workers there are.
pub fn workers_argument<'a>() -> Argument<'a>
    ensures { rule_of_argument result ≡ workers }
{
    Argument::Number(
        "workers",
        "N",
        1,
        MAX_WORKERS as u64,
        "How many threads check the pieces of a certificate, from 1 to 16; 2 where none is given",
    )
}

/// Whether the program gives the reason of a refusal.
pub fn why_argument<'a>() -> Argument<'a>
    ensures { rule_of_argument result ≡ why }
{
    Argument::Flag("why", WHY)
}

/// Whether the program says how far the work is.
pub fn progress_argument<'a>() -> Argument<'a>
    ensures { rule_of_argument result ≡ progress }
{
    Argument::Flag("progress", PROGRESS)
}

/// How many seals are taken while clients run.
pub fn seals_argument<'a>() -> Argument<'a>
    ensures { rule_of_argument result ≡ number_option (codes "seals") 0 MAX_SEALS }
{
    Argument::Number(
        "seals",
        "N",
        0,
        MAX_SEALS as u64,
        "How many histories are sealed while clients run, from 0 to 8; 0 where none is given. They need not come in the order of time",
    )
}

/// The session whose client never ends its last call.
pub fn stop_argument<'a>() -> Argument<'a>
    ensures { rule_of_argument result ≡ number_option (codes "stop") 0 (MAX_SESSIONS - 1) }
{
    Argument::Number(
        "stop",
        "S",
        0,
        MAX_SESSIONS as u64 - 1,
        "The session whose client never ends its last call, from 0 to 15; none where none is given",
    )
}

/// How many reads that show a fault are listed.
pub fn all_argument<'a>() -> Argument<'a>
    ensures { rule_of_argument result ≡ all }
{
    Argument::Number(
        "all",
        "N",
        1,
        MAX_LISTED as u64,
        "Lists up to N reads that show a fault, from 1 to 1000000, and counts them by kind and by session",
    )
}

/// The number of events after which a log is judged again.
pub fn every_argument<'a>() -> Argument<'a>
    ensures { rule_of_argument result ≡ every }
{
    Argument::Number("every", "N", 1, MAX_EVERY as u64, EVERY)
}

/// How many reads are to be answered at least.
pub fn least_reads_argument<'a>() -> Argument<'a>
    ensures { rule_of_argument result ≡ least_reads }
{
    Argument::Number(
        "at-least-reads",
        "N",
        1,
        MAX_LEAST_READS as u64,
        LEAST_READS,
    )
}

// The name of a store.
fn store_argument<'a>(alloc: Global) -> Arg<'a>
    ensures rule { rule_of result ≡ store }
    ensures local { result.global ≡ false }
{
    Arg::new(alloc, "store")
        .value_name("STORE")
        .required(true)
        .action(ArgAction::Set)
        .help("The store: causal or lamport")
}

// An option that has no value.
fn flag_option<'a>(alloc: Global, name: &'a str, help: &'a str) -> Arg<'a>
    ensures rule { rule_of result ≡ flag name.now }
    ensures local { result.global ≡ false }
{
    Arg::new(alloc, name)
        .long(name)
        .action(ArgAction::SetTrue)
        .help(help)
}

// An option whose value is a number within bounds.
fn number_option<'a>(
    alloc: Global,
    name: &'a str,
    value: &'a str,
    least: u64,
    most: u64,
    help: &'a str,
) -> Arg<'a>
    ensures rule { rule_of result ≡ number_option name.now least most }
    ensures local { result.global ≡ false }
{
    Arg::new(alloc, name)
        .long(name)
        .value_name(value)
        .action(ArgAction::Set)
        .value_parser(ValueParser::unsigned(least, most))
        .help(help)
}

// The criteria that are expected to be met.
fn expect_option<'a>(alloc: Global) -> Arg<'a>
    ensures rule { rule_of result ≡ expect }
    ensures local { result.global ≡ false }
{
    Arg::new(alloc, "expect")
        .long("expect")
        .value_name("LIST")
        .action(ArgAction::Set)
        .help(
            "What is to be met: some of cc, cm and ccv, joined by commas. Sets the status, as below",
        )
}

// Whether lines are coloured.
fn color_option<'a>(alloc: Global) -> Arg<'a>
    ensures rule { rule_of result ≡ color }
    ensures local { result.global ≡ false }
{
    Arg::new(alloc, "color")
        .long("color")
        .value_name("WHEN")
        .action(ArgAction::Set)
        .help(COLOR)
}

// The file that the answer goes to.
fn output_option<'a>(alloc: Global) -> Arg<'a>
    ensures rule { rule_of result ≡ output }
    ensures local { result.global ≡ false }
{
    Arg::new(alloc, "output")
        .short('o')
        .value_name("FILE")
        .action(ArgAction::Set)
        .help(OUTPUT)
}

// The files of the input.
fn files_argument<'a>(alloc: Global) -> Arg<'a>
    ensures rule { rule_of result ≡ files }
    ensures local { result.global ≡ false }
{
    Arg::new(alloc, "file")
        .value_name("FILE")
        .action(ArgAction::Append)
        .num_args(1..)
        .help(FILES)
}
