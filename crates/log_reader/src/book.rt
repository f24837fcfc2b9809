//! The log that lines give.

ghost use Rattle.std.specs.Prelude.{◌≡◌, ◌<◌, [], IfErr, IfOk, IfSome, OnOk};
ghost use Rattle.std.specs.Prelude.{length, slice_get, string_bytes, codes, Some, None, if◌then◌else◌};
ghost use Rattle.log_reader.specs.Names.{same_name, text_name};
ghost use Rattle.log_reader.specs.Logs.{IsPending, MayFollow, call_of, client_number, ending_of, key_number, no_log, value_number};
ghost use Rattle.log_reader.specs.Logs.{with_call, with_client, with_ending, with_event, with_key, with_value};
ghost use Rattle.log_reader.specs.Readings.{AreNamed, Extends, IsCallNamed, IsEndingNamed, IsNamed};
ghost use Rattle.log_reader.specs.Steps.{call_view, ending_view, name_in};
ghost use Rattle.log_reader.specs.BookSteps.{AddsOrder, IsEventFault, IsSaidFault};
ghost use Rattle.log_reader.specs.Forms.{ordered};
ghost use Rattle.log_reader.specs.Shown.{IsShown};

use crate::forms::note_of;
use crate::log_fault::{LogFault, refused};
use crate::name_value::NameValue;
use crate::names::Names;
use crate::notes::{Note, Notes};
use crate::refusal::{Reason, Refusal};
use crate::said::{SaidCall, SaidEnding};
use log_events::{ClientCall, Ending, Event, EventLog, PushError};
use serde_json::Value;
use std::alloc::{AllocError, Global};
use std::marker::Model;

/// A log: the tables of names, the events, the line of each, and whether its lines stand in the order of time; and notes, which are no
/// part of it.
#[derive(Drop)]
pub(crate) struct Book {
    clients: Names,
    keys: Names,
    values: Names,
    log: EventLog,
    lines: Vec<u32>,
    is_in_time: bool,
    notes: Notes,
}

impl Model for Book {
    ghost use Rattle.log_reader.specs.Logs.{Log};
    ghost use Rattle.log_reader.specs.BookSteps.{IsBook};

    ghost Value = { Log };

    ghost view = { λ b.
        record { clients = b.clients; keys = b.keys; values = b.values; events = b.log; lines = b.lines.items; in_time = b.is_in_time } };

    ghost invariant = { λ b. IsBook
        (record { clients = b.clients; keys = b.keys; values = b.values; events = b.log; lines = b.lines.items; in_time = b.is_in_time }) };
}

impl Book {
    /// A log of no lines, which keeps notes or none.
    pub(crate) fn new(alloc: Global, keeps_notes: bool) -> Book
        ensures { result ≡ no_log }
    {
        Book {
            clients: Names::new(alloc),
            keys: Names::new(alloc),
            values: Names::new(alloc),
            log: EventLog::new(alloc),
            lines: Vec::new(alloc),
            is_in_time: false,
            notes: Notes::new(alloc, keeps_notes),
        }
    }

    /// The number of a client.
    pub(crate) fn client(&mut self, client: NameValue<'_>) -> Result<u32, LogFault>
        ensures number { IfOk result (λ number. number ≡ client_number self.old (name_in client.entry)) }
        ensures within { IfOk result (λ number. number < length self.new.clients) }
        ensures log { OnOk result (self.new ≡ with_client self.old (name_in client.entry)) }
        ensures error { IfErr result (λ e. e ≡ LogFault.Memory) }
        ensures extends { Extends self.old self.new }
    {
        Ok(self.clients.number(client)?)
    }

    /// The number of a key.
    pub(crate) fn key(&mut self, key: NameValue<'_>) -> Result<u32, LogFault>
        ensures number { IfOk result (λ number. number ≡ key_number self.old (name_in key.entry)) }
        ensures within { IfOk result (λ number. number < length self.new.keys) }
        ensures log { OnOk result (self.new ≡ with_key self.old (name_in key.entry)) }
        ensures error { IfErr result (λ e. e ≡ LogFault.Memory) }
        ensures extends { Extends self.old self.new }
    {
        Ok(self.keys.number(key)?)
    }

    /// The number of a value.
    pub(crate) fn value(&mut self, value: NameValue<'_>) -> Result<u32, LogFault>
        ensures number { IfOk result (λ number. number ≡ value_number self.old (name_in value.entry)) }
        ensures within { IfOk result (λ number. number < length self.new.values) }
        ensures log { OnOk result (self.new ≡ with_value self.old (name_in value.entry)) }
        ensures error { IfErr result (λ e. e ≡ LogFault.Memory) }
        ensures extends { Extends self.old self.new }
    {
        Ok(self.values.number(value)?)
    }

    /// The call that a line says, with the numbers of its names.
    pub(crate) fn call(&mut self, call: SaidCall<'_>) -> Result<ClientCall, LogFault>
        ensures call { IfOk result (λ c. c ≡ call_of self.old (call_view call.entry)) }
        ensures named { IfOk result (IsCallNamed self.new) }
        ensures log { OnOk result (self.new ≡ with_call self.old (call_view call.entry)) }
        ensures error { IfErr result (λ e. e ≡ LogFault.Memory) }
        ensures extends { Extends self.old self.new }
    {
        match call {
            SaidCall::Write(key, value) => {
                let key = self.key(key)?;
                let value = self.value(value)?;
                Ok(ClientCall::WriteTo(key, value))
            }
            SaidCall::Read(key) => Ok(ClientCall::ReadOf(self.key(key)?)),
            SaidCall::Delete(key) => Ok(ClientCall::DeleteOf(self.key(key)?)),
        }
    }

    /// The ending that a line says for a pending call, where the call can end so.
    pub(crate) fn ending(
        &mut self,
        call: ClientCall,
        ending: SaidEnding<'_>,
    ) -> Result<Option<Ending>, LogFault>
        ensures ending { IfOk result (λ e. e ≡ ending_of self.old call (ending_view ending.entry)) }
        ensures named { IfOk result (λ e. IfSome e (IsEndingNamed self.new)) }
        ensures log { OnOk result (self.new ≡ with_ending self.old (Some call) (ending_view ending.entry)) }
        ensures error { IfErr result (λ e. e ≡ LogFault.Memory) }
        ensures extends { Extends self.old self.new }
    {
        match (ending, call) {
            (SaidEnding::Failed, _) => Ok(Some(Ending::Failed)),
            (SaidEnding::Lost, _) => Ok(Some(Ending::Lost)),
            (SaidEnding::Answer(value), ClientCall::ReadOf(_)) => {
                Ok(Some(Ending::Got(self.value(value)?)))
            }
            (SaidEnding::Nothing, ClientCall::ReadOf(_)) => Ok(Some(Ending::GotNothing)),
            (SaidEnding::Answer(value), _) => Ok(answered(value)),
            (SaidEnding::Nothing, _) => Ok(None),
        }
    }

    /// The pending call of a client, or none.
    pub(crate) fn pending(&self, client: u32) -> Option<ClientCall>
        ensures { IsPending self.now.events client result }
    {
        self.log.pending(client)
    }

    /// How many events there are.
    pub(crate) fn events(&self) -> u32
        ensures { result ≡ length self.now.events }
    {
        self.log.events()
    }

    /// The events.
    pub(crate) fn log(&self) -> &EventLog
        ensures { result.now ≡ self.now.events }
    {
        &self.log
    }

    /// Whether the lines stand in the order of time, as the first of them says.
    pub(crate) fn is_in_time(&self) -> bool
        ensures { result ≡ self.now.in_time }
    {
        self.is_in_time
    }

    /// The names of the clients.
    pub(crate) fn clients(&self) -> &Names
        ensures { result.now ≡ self.now.clients }
    {
        &self.clients
    }

    /// The names of the keys.
    pub(crate) fn keys(&self) -> &Names
        ensures { result.now ≡ self.now.keys }
    {
        &self.keys
    }

    /// The names of the values.
    pub(crate) fn values(&self) -> &Names
        ensures { result.now ≡ self.now.values }
    {
        &self.values
    }

    /// The line of the event at a place.
    pub(crate) fn line_of(&self, place: usize) -> u32
        requires { place < length self.now.events }
        ensures { slice_get self.now.lines place ≡ Some result }
    {
        self.lines[place]
    }

    /// Each event has a line. The method does nothing.
    pub(crate) fn events_have_lines(&self)
        ensures { length self.now.lines ≡ length self.now.events }
    {
        let _lines = &self.lines;
    }

    /// Each number of an event has a name. The method does nothing.
    pub(crate) fn numbers_have_names(&self)
        ensures { AreNamed self.now }
    {
        let _lines = &self.lines;
    }

    /// The events alone.
    pub(crate) fn into_log(self) -> EventLog
        ensures { result ≡ self.events }
    {
        self.log
    }

    /// Adds an event, from the line with this number. Refuses an event that may not follow, for this reason.
    pub(crate) fn add(&mut self, event: Event, line: u64, reason: Reason) -> Result<(), LogFault>
        requires { IsNamed self.old event }
        ensures follows { OnOk result (MayFollow self.old event) }
        ensures log { OnOk result (self.new ≡ with_event self.old line event) }
        ensures error { IfErr result (IsEventFault self.old event line reason) }
        ensures extends { Extends self.old self.new }
    {
        let Ok(number) = u32::try_from(line) else {
            return Err(LogFault::Memory);
        };
        self.lines.reserve(1)?;
        self.notes.follow(event, self.log.events())?;
        match self.log.push(event) {
            Ok(()) => {
                self.log.events_are_log();
                self.lines.push(number)?;
                Ok(())
            }
            Err(PushError::NotAllowed) => Err(LogFault::Refused(Refusal { reason, line })),
            Err(PushError::Memory) => Err(LogFault::Memory),
        }
    }
}

impl Book {
    /// Takes in that the lines stand in the order of time, as the line with this number says. Refuses it after an event, and a second time.
    pub(crate) fn order(&mut self, line: u64) -> Result<(), LogFault>
        ensures ordered { OnOk result (AddsOrder self.old self.new) }
        ensures refused { IfErr result (IsSaidFault self.old ordered line) }
        ensures extends { Extends self.old self.new }
    {
        if self.is_in_time || self.log.events() != 0 {
            return Err(refused(Reason::LateOrder, line));
        }
        self.is_in_time = true;
        Ok(())
    }
}

impl Book {
    /// Keeps the note of the line of the last event, if it has one.
    pub(crate) fn add_note(
        &mut self,
        alloc: Global,
        value: &Value,
        line: u64,
    ) -> Result<(), LogFault>
        ensures log { self.new ≡ self.old }
        ensures error { IfErr result (λ e. e ≡ LogFault.Memory) }
    {
        match note_of(value) {
            Some((note, is_end)) => Ok(self.notes.add(alloc, note, is_end, line)?),
            None => Ok(()),
        }
    }

    /// The note on the begin or on the end of the call that began at a place, if one was kept.
    pub(crate) fn note(
        &self,
        alloc: Global,
        call: u32,
        is_end: bool,
    ) -> Result<Option<Note>, AllocError>
        ensures { IfOk result (λ o. IfSome o (λ note. IsShown (string_bytes note.text))) }
    {
        self.notes.of_call(alloc, call, is_end)
    }
}

// The ending of a write or a delete by an answer.
fn answered(answer: NameValue<'_>) -> Option<Ending>
    ensures { result ≡ (if same_name (name_in answer.entry) (text_name (codes "ok")) then Some Ending.Answered else None) }
{
    match answer {
        NameValue::Text(text) => {
            if text == "ok" {
                Some(Ending::Answered)
            } else {
                None
            }
        }
        NameValue::Whole(_) | NameValue::Negative(_) | NameValue::Truth(_) => None,
    }
}
