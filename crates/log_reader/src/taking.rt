//! What a line does to a log.

ghost use Rattle.std.specs.Prelude.{◌≡◌, ◌<◌, Some, IfErr, IfOk, OnOk, length};
ghost use Rattle.serde_json.specs.View.{view};
ghost use Rattle.log_reader.specs.Forms.{said_at as said_by};
ghost use Rattle.log_reader.specs.Logs.{EndsBy, IsPending, Takes};
ghost use Rattle.log_reader.specs.Readings.{Extends};
ghost use Rattle.log_reader.specs.Steps.{ending_view, said_view};
ghost use Rattle.log_reader.specs.BookSteps.{AddsSaid, EndsCall, TakesSaid, TakesValue};
ghost use Rattle.log_reader.specs.BookSteps.{IsEndingFault, IsLineFault, IsRestFault, IsSaidFault, IsValueFault};

use crate::book::Book;
use crate::content::{Content, content_of};
use crate::forms::said_at;
use crate::log_fault::{LogFault, refused};
use crate::name_value::NameValue;
use crate::quick::quick_said;
use crate::refusal::Reason;
use crate::said::{Said, SaidCall, SaidEnding};
use json::Scratch;
use log_events::{ClientCall, Event};
use serde_json::Value;
use std::alloc::Global;

fn take_start(
    book: &mut Book,
    key: NameValue<'_>,
    value: NameValue<'_>,
    line: u64,
) -> Result<(), LogFault>
    ensures added { OnOk result (AddsSaid line book.old (said_view (Said.Start key.entry value.entry)) book.new) }
    ensures fault { IfErr result (IsSaidFault book.old (said_view (Said.Start key.entry value.entry)) line) }
    ensures extends { Extends book.old book.new }
{
    let key = book.key(key)?;
    let value = book.value(value)?;
    book.add(Event::Starts(key, value), line, Reason::LateStart)
}

fn take_begin(
    book: &mut Book,
    client: NameValue<'_>,
    call: SaidCall<'_>,
    line: u64,
) -> Result<(), LogFault>
    ensures added { OnOk result (AddsSaid line book.old (said_view (Said.Begin client.entry call.entry)) book.new) }
    ensures fault { IfErr result (IsSaidFault book.old (said_view (Said.Begin client.entry call.entry)) line) }
    ensures extends { Extends book.old book.new }
{
    let client = book.client(client)?;
    let call = book.call(call)?;
    book.add(Event::Begins(client, call), line, Reason::CallPending)
}

// Ends the pending call of the client with this number.
fn take_ending(
    book: &mut Book,
    client: u32,
    call: ClientCall,
    ending: SaidEnding<'_>,
    line: u64,
) -> Result<(), LogFault>
    requires known { client < length book.old.clients }
    requires pending { IsPending book.old.events client (Some call) }
    ensures ended { OnOk result (EndsCall line book.old client call (ending_view ending.entry) book.new) }
    ensures fault { IfErr result (IsEndingFault book.old call (ending_view ending.entry) line) }
    ensures extends { Extends book.old book.new }
{
    match book.ending(call, ending)? {
        Some(ending) => book.add(Event::Ends(client, ending), line, Reason::WrongEnd),
        None => Err(refused(Reason::WrongEnd, line)),
    }
}

fn take_end(
    book: &mut Book,
    client: NameValue<'_>,
    ending: SaidEnding<'_>,
    line: u64,
) -> Result<(), LogFault>
    ensures added { OnOk result (AddsSaid line book.old (said_view (Said.End client.entry ending.entry)) book.new) }
    ensures fault { IfErr result (IsSaidFault book.old (said_view (Said.End client.entry ending.entry)) line) }
    ensures extends { Extends book.old book.new }
{
    let client = book.client(client)?;
    match book.pending(client) {
        Some(call) => take_ending(book, client, call, ending, line),
        None => Err(refused(Reason::NothingPending, line)),
    }
}

/// Adds what a line says, from the line with this number. O(1) besides the names, on average.
pub(crate) fn take_said(book: &mut Book, said: Said<'_>, line: u64) -> Result<(), LogFault>
    ensures added { OnOk result (TakesSaid line book.old (said_view said.entry) book.new) }
    ensures fault { IfErr result (IsSaidFault book.old (said_view said.entry) line) }
    ensures extends { Extends book.old book.new }
{
    match said {
        Said::Start(key, value) => take_start(book, key, value, line),
        Said::Begin(client, call) => take_begin(book, client, call, line),
        Said::End(client, ending) => take_end(book, client, ending, line),
        Said::Ordered => book.order(line),
    }
}

// Adds what a JSON value says, from the line with this number, and its note.
fn take_value(alloc: Global, book: &mut Book, value: &Value, line: u64) -> Result<(), LogFault>
    ensures added { OnOk result (TakesValue line book.old (view value.now) book.new) }
    ensures fault { IfErr result (IsValueFault book.old (view value.now) line) }
    ensures extends { Extends book.old book.new }
{
    match said_at(value) {
        Some(said) => {
            take_said(book, said, line)?;
            book.add_note(alloc, value, line)
        }
        None => Err(refused(Reason::NoForm, line)),
    }
}

// Reads a line that a line feed ends, whatever its form.
fn take_any(alloc: Global, book: &mut Book, text: &[u8], line: u64) -> Result<(), LogFault>
    ensures takes { OnOk result (Takes line book.old text.now book.new) }
    ensures fault { IfErr result (IsLineFault book.old text.now line) }
    ensures extends { Extends book.old book.new }
{
    match content_of(alloc, text)? {
        Content::TooLong => Err(refused(Reason::TooLong, line)),
        Content::Blank => Ok(()),
        Content::NotJson => Err(refused(Reason::NotJson, line)),
        Content::Json(value) => {
            let taken = take_value(alloc, book, &value, line);
            drop(value);
            taken
        }
    }
}

/// Reads a line that a line feed ends, with this number.
pub(crate) fn take_line(
    alloc: Global,
    scratch: &mut Scratch<Global>,
    book: &mut Book,
    text: &[u8],
    line: u64,
) -> Result<(), LogFault>
    ensures takes { OnOk result (Takes line book.old text.now book.new) }
    ensures fault { IfErr result (IsLineFault book.old text.now line) }
    ensures extends { Extends book.old book.new }
{
    match quick_said(text, scratch)? {
        Some(said) => take_said(book, said, line),
        None => take_any(alloc, book, text, line),
    }
}

/// Reads what comes after the last line feed, as the line with this number. Returns whether it is torn.
pub(crate) fn take_rest(
    alloc: Global,
    book: &mut Book,
    text: &[u8],
    line: u64,
) -> Result<bool, LogFault>
    ensures ends { IfOk result (λ torn. EndsBy line book.old text.now torn book.new) }
    ensures fault { IfErr result (IsRestFault book.old text.now line) }
    ensures extends { Extends book.old book.new }
{
    match content_of(alloc, text)? {
        Content::TooLong => Err(refused(Reason::TooLong, line)),
        Content::Blank => Ok(false),
        Content::NotJson => Ok(true),
        Content::Json(value) => {
            let taken = take_value(alloc, book, &value, line);
            drop(value);
            match taken {
                Ok(()) => Ok(false),
                Err(fault) => Err(fault),
            }
        }
    }
}
