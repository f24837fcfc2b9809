//! The names of a log, as texts on its history have them.

ghost use Rattle.std.specs.Prelude.{◌≡◌, IfOk, string_bytes};
ghost use Rattle.log_reader.specs.EventLines.{line_at};
ghost use Rattle.show_log_names.specs.OperationLines.{is_of_lost_call, number_name, operation_name, role};

use crate::lacking_words::lacking_words;
use crate::left_out_words::{MAX_KEYS, left_out_words};
use crate::log_tables::{LogTables, StoodFor};
use crate::notes::with_notes;
use crate::phrases::{
    call_label, call_words, client_name, fork_label, fork_words, key_words, lost_call, value_name,
};
use crate::witnesses::Witnesses;
use log_events::{ClientCall, Ending};
use model_history::OpId;
use show_words::{Names, counted, listed};
use std::alloc::{AllocError, Global};

/// The names that a log has, for the history that it represents.
///
/// An operation is named by the line on which its call begins. A lost write or delete that was seen is three operations: `line 160 (call)`
/// is the write of its mark in the session of its client, `line 160 (later)` the read of the mark, and `line 160` the write or delete.
#[derive(Clone, Copy)]
pub struct LogNames<'a, T: LogTables> {
    pub tables: &'a T,
    /// What is known of the reads that the history leaves out.
    pub witnesses: Witnesses,
}

/// What a number of a value represents.
enum Held {
    /// The value of a log that has this number.
    Value(u32),
    /// A key that holds nothing, or no longer anything.
    Nothing,
    /// No value of the log: a mark.
    Mark,
}

impl<'a, T: LogTables> LogNames<'a, T> {
    // Whether the session of an operation is one of a lost write or delete.
    fn is_in_fork(&self, op: OpId) -> bool
        ensures { result ≡ is_of_lost_call (T.log self.now.tables.now) op }
    {
        op.session >= self.tables.clients()
    }

    // The line on which the call of an operation begins.
    fn line(&self, stood: StoodFor) -> u64
        ensures { result ≡ line_at (T.log self.now.tables.now) stood.place }
    {
        self.tables.line(stood.place)
    }

    // What the value of a variable represents.
    fn held(&self, key: u32, value: u64) -> Held {
        if is_mark(key) {
            return Held::Mark;
        }
        if value % 2 == 0 {
            return Held::Nothing;
        }
        match u32::try_from(value / 2) {
            Ok(number) => Held::Value(number),
            Err(_) => Held::Mark,
        }
    }
}

// Whether a variable is the mark of a lost write or delete, and no key.
fn is_mark(key: u32) -> bool {
    key % 2 == 1
}

// Whether a value is that of a delete.
fn is_deleted(value: u64) -> bool {
    value % 2 == 0 && value > 0
}

impl<'a, T: LogTables> Names for LogNames<'a, T> {
    fn in_whole(&self, op: OpId) -> OpId {
        op
    }

    fn tells_more(&self) -> bool {
        true
    }

    fn push_remarks(&self, alloc: Global, lines: &mut Vec<String>) -> Result<(), AllocError> {
        if let Some(words) = lacking_words(alloc, self.tables)? {
            lines.push(words)?;
        }
        if let Some(words) = left_out_words(alloc, self.tables, self.witnesses)? {
            lines.push(words)?;
        }
        Ok(())
    }

    fn place_words(&self) -> &'static str {
        "In the log"
    }

    fn session_word(&self) -> &'static str {
        "client"
    }

    fn sessions_words(&self, alloc: Global, count: usize) -> Result<String, AllocError> {
        match lost_words(self.tables, count as u64) {
            Some(lost) => format!(in alloc; "{count} clients{lost}"),
            None => counted(alloc, count, "client"),
        }
    }

    fn goes_on(&self, from: OpId, to: OpId) -> bool {
        let is_own = from.session == to.session && from.index < to.index;
        is_own || (self.is_in_fork(to) && to.index == 0)
    }

    fn operation(&self, alloc: Global, op: OpId) -> Result<String, AllocError>
        ensures { IfOk result (λ text. string_bytes text ≡ operation_name (T.log self.now.tables.now) (T.calls self.now.tables.now) op) }
    {
        match self.tables.stood_for(op) {
            Some(stood) => {
                let line = self.line(stood);
                let role = role_words(self.is_in_fork(op), op.index, stood.ending);
                format!(in alloc; "line {line}{role}")
            }
            None => name_by_numbers(alloc, op),
        }
    }

    fn session(&self, alloc: Global, op: OpId) -> Result<String, AllocError> {
        match self.tables.stood_for(op) {
            Some(stood) if self.is_in_fork(op) => {
                let line = self.line(stood);
                let lost = lost_call(stood.call);
                format!(in alloc; "the {lost} of line {line}")
            }
            Some(stood) => session_of_client(alloc, self.tables, stood.client),
            None => session_of_number(alloc, self.tables, op.session),
        }
    }

    fn phrase(&self, alloc: Global, op: OpId) -> Result<Option<String>, AllocError> {
        match self.tables.stood_for(op) {
            Some(stood) if self.is_in_fork(op) => {
                Ok(Some(fork_words(alloc, self.tables, stood, op.index > 0)?))
            }
            Some(stood) => Ok(Some(noted_words(alloc, self.tables, stood)?)),
            None => Ok(None),
        }
    }

    fn label(&self, alloc: Global, op: OpId) -> Result<Option<String>, AllocError> {
        match self.tables.stood_for(op) {
            Some(stood) if self.is_in_fork(op) => {
                Ok(Some(fork_label(alloc, self.tables, stood, op.index > 0)?))
            }
            Some(stood) => Ok(Some(call_label(alloc, self.tables, stood)?)),
            None => Ok(None),
        }
    }

    fn variable(&self, alloc: Global, key: u32) -> Result<String, AllocError> {
        if is_mark(key) {
            let line = self.tables.line(key / 2);
            return format!(in alloc; "the mark of line {line}");
        }
        key_words(alloc, self.tables, key / 2)
    }

    fn variables(&self, alloc: Global, keys: &[u32]) -> Result<String, AllocError> {
        let mut named = Vec::new(alloc);
        for key in keys.iter().take(MAX_KEYS) {
            named.push(self.variable(alloc, *key)?)?;
        }
        listed(alloc, &named, keys.len().saturating_sub(MAX_KEYS))
    }

    fn value(&self, alloc: Global, key: u32, value: u64) -> Result<String, AllocError> {
        match self.held(key, value) {
            Held::Value(number) => value_name(alloc, self.tables, number),
            Held::Nothing => String::from_str(alloc, "nothing"),
            Held::Mark => format!(in alloc; "{value}"),
        }
    }

    fn initial_read_words(
        &self,
        alloc: Global,
        key: u32,
        value: u64,
    ) -> Result<String, AllocError> {
        let variable = self.variable(alloc, key)?;
        match self.held(key, value) {
            Held::Nothing => format!(in alloc; "found nothing at {variable}"),
            Held::Value(_) | Held::Mark => {
                let value = self.value(alloc, key, value)?;
                format!(in alloc; "read {value}, the initial value of {variable}")
            }
        }
    }

    fn unwritten_read_words(
        &self,
        alloc: Global,
        key: u32,
        value: u64,
    ) -> Result<String, AllocError> {
        let variable = self.variable(alloc, key)?;
        match self.held(key, value) {
            Held::Nothing => {
                format!(in alloc; "found nothing at {variable}, though nobody deletes it")
            }
            Held::Value(_) | Held::Mark => {
                let value = self.value(alloc, key, value)?;
                format!(in alloc; "read {value}, which nobody wrote to {variable}")
            }
        }
    }

    fn initial_words(&self, alloc: Global, key: u32, value: u64) -> Result<String, AllocError> {
        match self.held(key, value) {
            Held::Nothing => String::from_str(alloc, "it holds nothing at the start"),
            Held::Value(_) | Held::Mark => {
                let value = self.value(alloc, key, value)?;
                format!(in alloc; "its initial value is {value}")
            }
        }
    }

    fn unwritten_words(&self, key: u32, value: u64) -> &'static str {
        match self.held(key, value) {
            Held::Nothing => "though nobody deletes it",
            Held::Value(_) | Held::Mark => "which nobody wrote",
        }
    }

    fn write_words(&self, alloc: Global, key: u32, value: u64) -> Result<String, AllocError> {
        if !is_mark(key) && is_deleted(value) {
            return String::from_str(alloc, "deleted it");
        }
        let value = self.value(alloc, key, value)?;
        format!(in alloc; "wrote {value} to it")
    }
}

// What is said of the sessions beside those of clients, where this many sessions have some.
fn lost_words<T: LogTables>(tables: &T, sessions: u64) -> Option<&'static str> {
    let mut has_writes = false;
    let mut has_deletes = false;
    for session in tables.clients()..sessions {
        if is_lost_delete(tables.stood_for(OpId { session, index: 0 })) {
            has_deletes = true;
        } else {
            has_writes = true;
        }
    }
    match (has_writes, has_deletes) {
        (true, true) => Some(", lost writes and lost deletes"),
        (true, false) => Some(" and lost writes"),
        (false, true) => Some(" and lost deletes"),
        (false, false) => None,
    }
}

// Whether an operation of a lost call is of a delete.
fn is_lost_delete(stood: Option<StoodFor>) -> bool {
    match stood {
        Some(stood) => matches!(stood.call, ClientCall::DeleteOf(_)),
        None => false,
    }
}

// Which of the operations of a lost write or delete an operation is.
fn role_words(is_of_lost: bool, index: u64, ending: Option<Ending>) -> &'static str
    ensures { result.now ≡ role is_of_lost index ending }
{
    match ending {
        _ if is_of_lost && index == 0 => " (later)",
        Some(Ending::Lost) if !is_of_lost => " (call)",
        _ => "",
    }
}

// The name of an operation of which nothing is known.
fn name_by_numbers(alloc: Global, op: OpId) -> Result<String, AllocError>
    ensures { IfOk result (λ text. string_bytes text ≡ number_name op) }
{
    let OpId { session, index } = op;
    format!(in alloc; "{session}.{index}")
}

// What a client did by a call, and its notes.
fn noted_words<T: LogTables>(
    alloc: Global,
    tables: &T,
    stood: StoodFor,
) -> Result<String, AllocError> {
    let words = call_words(alloc, tables, stood)?;
    with_notes(alloc, tables, words, stood.place)
}

// A client by its name, as a session.
fn session_of_client<T: LogTables>(
    alloc: Global,
    tables: &T,
    client: u32,
) -> Result<String, AllocError> {
    let name = client_name(alloc, tables, client)?;
    format!(in alloc; "client {name}")
}

// The client of a session that has a number, where it is one.
fn session_of_number<T: LogTables>(
    alloc: Global,
    tables: &T,
    session: u64,
) -> Result<String, AllocError> {
    match u32::try_from(session) {
        Ok(client) if session < tables.clients() => session_of_client(alloc, tables, client),
        _ => format!(in alloc; "session {session}"),
    }
}
