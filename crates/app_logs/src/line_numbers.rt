//! The lines of a log on which the calls of its operations begin and end.

ghost use Rattle.std.specs.Prelude.{◌≡◌, ◌++◌, ℕ, List, IfOk, OnOk, codes, string_bytes};
ghost use Rattle.app_logs.specs.LogTexts.{IsBegunOn, IsCallLine};
ghost use Rattle.log_reader.specs.EventLines.{line_at as line_in};
ghost use Rattle.app_logs.specs.TextLists.{IsListText};
ghost use Rattle.app_logs.specs.Steps.ListsSoFar.{AddsList};

use crate::tables::line_at;
use crate::text_lists::{push_comma, push_element};
use log_events::LoggedCall;
use log_reader::EventReader;
use order_causal::Rows;
use std::alloc::{AllocError, Global};

/// The lines of calls, given for each session of the history, as JSON and a line feed.
pub(crate) fn lines_text(
    alloc: Global,
    reader: &EventReader,
    sessions: &Rows<LoggedCall>,
) -> Result<String, AllocError>
    ensures { IfOk result (λ text. (lists : List ℕ) × IsListText (IsListText (IsCallLine reader.now.log)) sessions.now lists
        × (string_bytes text ≡ lists ++ codes "\n")) }
{
    let mut text = String::from_str(alloc, "[")?;
    for session in 0..sessions.len() {
        push_comma(&mut text, session)?;
        push_session(alloc, &mut text, reader, sessions.get(session))?;
    }
    text.push_str("]\n")?;
    Ok(text)
}

// Appends the list of the lines of calls to a text.
fn push_session(
    alloc: Global,
    text: &mut String,
    reader: &EventReader,
    calls: &[LoggedCall],
) -> Result<(), AllocError>
    ensures { OnOk result (AddsList (IsCallLine reader.now.log) calls.now (string_bytes text.old) (string_bytes text.new)) }
{
    text.push_str("[")?;
    for place in 0..calls.len() {
        let line = call_line(alloc, reader, calls[place].place())?;
        push_element(text, place, line.as_str())?;
    }
    text.push_str("]")
}

// The line on which the call at a place begins, and that of its end where that has a note.
fn call_line(alloc: Global, reader: &EventReader, place: u32) -> Result<String, AllocError>
    ensures { IfOk result (λ text. IsBegunOn (line_in reader.now.log place) (string_bytes text)) }
{
    let begin = line_at(reader, place);
    match reader.note(alloc, place, true)? {
        Some(note) => {
            let end = note.line;
            format!(in alloc; "[{begin},{end}]")
        }
        None => format!(in alloc; "{begin}"),
    }
}
