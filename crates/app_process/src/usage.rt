//! What comes of words that ask for nothing.

ghost use Rattle.std.specs.Prelude.{string_bytes};
ghost use Rattle.app_process.specs.Faults.{WritingFails};
ghost use Rattle.app_process.specs.Usages.{EndsUsage, ShowsHelp};

use crate::build_record::with_gate;
use crate::place::Place;
use crate::reporting::report;
use crate::saying::Say;
use app_command_line::Usage;
use app_engine::RunError;
use json_lines::{Sink, write_whole};
use std::rt::Files;
use std::sync::Wait;

pub(crate) const USAGE_STATUS: u8 = 2;

/// Writes help, or says what is wrong with words that ask for nothing, and returns the exit status.
pub(crate) fn report_usage<P: Files + AllocGlobal + Eprint + Wait, W: Sink, E: Say>(
    rt: &P,
    writer: &mut W,
    errors: &mut E,
    usage: Usage,
) -> u8
    ensures { EndsUsage (WritingFails W.called) usage (W.contents writer.old) (W.contents writer.new)
        (E.said errors.old) (E.said errors.new) result }
{
    match usage {
        Usage::Help(text) => show_help(rt, writer, errors, text),
        Usage::Memory => report(&Place::plain(rt), errors, &RunError::Memory),
        Usage::Fault(text) => {
            errors.say(text.as_str());
            USAGE_STATUS
        }
    }
}

// Writes the help or the version, and after the version whether the gate passed for this build.
#[tactic(auto, using(crate::proofs::FaultLaws::fails_to_take))]
fn show_help<P: Files + AllocGlobal + Eprint + Wait, W: Sink, E: Say>(
    rt: &P,
    writer: &mut W,
    errors: &mut E,
    text: String,
) -> u8
    ensures { ShowsHelp (WritingFails W.called) (string_bytes text) (W.contents writer.old) (W.contents writer.new)
        (E.said errors.old) (E.said errors.new) result }
{
    let text = with_gate(rt, text);
    match write_whole(writer, text.as_bytes()) {
        Ok(()) => 0,
        Err(_) => report(&Place::plain(rt), errors, &RunError::WriteFault),
    }
}
