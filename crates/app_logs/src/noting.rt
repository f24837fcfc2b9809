//! Writing the notes of a log.

ghost use Rattle.std.specs.Prelude.{◌<◌, ◌≤◌, IfOk, OnOk, length, string_bytes};
ghost use Rattle.log_reader.specs.Shown.{IsShown};
ghost use Rattle.app_logs.specs.Notes.{AreNotes};
ghost use Rattle.app_logs.specs.Steps.NotesSoFar.{BeginsNotes, IsNote, StaysNotes};

use log_reader::{EventReader, Note};
use std::alloc::{AllocError, Global};

// The begin or the end of a call, which has a note.
#[derive(Clone, Copy)]
struct NotedEvent {
    line: u64,
    // The place at which the call began.
    call: u32,
    is_end: bool,
}

/// The notes of a log as JSON and a line feed: for each line that has a note, in order, a list of its number, from 1, and the note.
///
/// It has the notes that the reader keeps. Fails for want of memory alone. O(n log n) for n calls, and O(n) for n bytes of notes. Tests,
/// not proofs, cover which notes and lines these are.
#[tactic(auto, using(crate::proofs::NoteTexts::notes_end))]
pub(crate) fn notes_text(alloc: Global, reader: &EventReader) -> Result<String, AllocError>
    ensures { IfOk result (λ text. AreNotes (string_bytes text)) }
{
    let mut events = Vec::new(alloc);
    for call in reader.log().calls() {
        push_event(alloc, &mut events, reader, call.place(), false)?;
        push_event(alloc, &mut events, reader, call.place(), true)?;
    }
    events.sort_unstable_by_key(|event| event.line);
    let mut text = list_of(alloc, reader, events.as_slice())?;
    text.push_str("]\n")?;
    Ok(text)
}

// Appends the begin or the end of a call where it has a note.
fn push_event(
    alloc: Global,
    events: &mut Vec<NotedEvent>,
    reader: &EventReader,
    call: u32,
    is_end: bool,
) -> Result<(), AllocError> {
    if let Some(note) = reader.note(alloc, call, is_end)? {
        let line = note.line;
        events.push(NotedEvent { line, call, is_end })?;
    }
    Ok(())
}

// The list of the notes of events, without its end.
#[tactic(auto, using(crate::proofs::NoteTexts::no_notes))]
fn list_of(alloc: Global, reader: &EventReader, events: &[NotedEvent]) -> Result<String, AllocError>
    ensures { IfOk result (λ text. BeginsNotes (string_bytes text)) }
{
    let mut text = String::from_str(alloc, "[")?;
    for event in events {
        if let Some(note) = reader.note(alloc, event.call, event.is_end)? {
            push_note(alloc, &mut text, &note)?;
        }
    }
    Ok(text)
}

// Appends a note to a list.
fn push_note(alloc: Global, text: &mut String, note: &Note) -> Result<(), AllocError>
    requires { IsShown (string_bytes note.now.text) }
    ensures { OnOk result (StaysNotes (string_bytes text.old) (string_bytes text.new)) }
{
    let pair = pair_of(alloc, note)?;
    if text.len() > 1 {
        push_further(text, &pair)
    } else {
        push_first(text, &pair)
    }
}

// The list of the line of a note and the note.
fn pair_of(alloc: Global, note: &Note) -> Result<String, AllocError>
    requires { IsShown (string_bytes note.now.text) }
    ensures { IfOk result (λ pair. IsNote (string_bytes pair)) }
{
    let line = note.line;
    let note = note.text.as_str();
    let pair = format!(in alloc; "[{line},{note}]")?;
    Ok(pair)
}

// Appends the first note to a list.
#[tactic(auto, using(crate::proofs::NoteTexts::first_note))]
fn push_first(text: &mut String, pair: &str) -> Result<(), AllocError>
    requires none { length (string_bytes text.old) ≤ 1 }
    requires note { IsNote pair.now }
    ensures { OnOk result (StaysNotes (string_bytes text.old) (string_bytes text.new)) }
{
    text.push_str(pair)
}

// Appends a further note to a list, after a comma.
fn push_further(text: &mut String, pair: &str) -> Result<(), AllocError>
    requires some { 1 < length (string_bytes text.old) }
    requires note { IsNote pair.now }
    ensures { OnOk result (StaysNotes (string_bytes text.old) (string_bytes text.new)) }
{
    text.push_str(",")?;
    text.push_str(pair)?;
    Ok(())
}
