//! What is said of single calls, clients, keys and values.

use crate::log_tables::{LogTables, StoodFor};
use crate::notes::with_notes;
use crate::shortening::short_name;
use log_events::{ClientCall, Ending};
use std::alloc::{AllocError, Global};

/// A client in words: a text as it is, and else `client 3`.
pub(crate) fn client_words<T: LogTables>(
    alloc: Global,
    tables: &T,
    client: u32,
) -> Result<String, AllocError> {
    let name = client_name(alloc, tables, client)?;
    with_word(alloc, name, "client")
}

/// The name of a client, cut where it is long.
pub(crate) fn client_name<T: LogTables>(
    alloc: Global,
    tables: &T,
    client: u32,
) -> Result<String, AllocError> {
    short_name(alloc, tables.client_name(alloc, client)?)
}

/// A key in words: a text as it is, and else `key 3`.
pub(crate) fn key_words<T: LogTables>(
    alloc: Global,
    tables: &T,
    key: u32,
) -> Result<String, AllocError> {
    let name = key_name(alloc, tables, key)?;
    with_word(alloc, name, "key")
}

/// The name of a key, cut where it is long.
pub(crate) fn key_name<T: LogTables>(
    alloc: Global,
    tables: &T,
    key: u32,
) -> Result<String, AllocError> {
    short_name(alloc, tables.key_name(alloc, key)?)
}

/// A value, cut where it is long.
pub(crate) fn value_name<T: LogTables>(
    alloc: Global,
    tables: &T,
    value: u32,
) -> Result<String, AllocError> {
    short_name(alloc, tables.value_name(alloc, value)?)
}

// A name, with a word before it if the name is no text in quotes.
fn with_word(alloc: Global, name: String, word: &'static str) -> Result<String, AllocError> {
    if name.starts_with('"') {
        Ok(name)
    } else {
        format!(in alloc; "{word} {name}")
    }
}

/// What a client did by a call, and what is known of its end.
pub(crate) fn call_words<T: LogTables>(
    alloc: Global,
    tables: &T,
    stood: StoodFor,
) -> Result<String, AllocError> {
    let client = client_words(alloc, tables, stood.client)?;
    match stood.call {
        ClientCall::WriteTo(key, value) => {
            let written = write_words(alloc, tables, key, value)?;
            written_by(alloc, &client, &written, stood.ending)
        }
        ClientCall::ReadOf(key) => {
            let key = key_words(alloc, tables, key)?;
            read_by(alloc, tables, &client, &key, stood.ending)
        }
        ClientCall::DeleteOf(key) => {
            let key = key_words(alloc, tables, key)?;
            deleted_by(alloc, &client, &key, stood.ending)
        }
    }
}

// A value and the key to which it is written.
fn write_words<T: LogTables>(
    alloc: Global,
    tables: &T,
    key: u32,
    value: u32,
) -> Result<String, AllocError> {
    let value = value_name(alloc, tables, value)?;
    let key = key_words(alloc, tables, key)?;
    format!(in alloc; "{value} to {key}")
}

// A write by a client.
fn written_by(
    alloc: Global,
    client: &str,
    written: &str,
    ending: Option<Ending>,
) -> Result<String, AllocError> {
    match ending {
        Some(Ending::Lost) => {
            format!(in alloc; "{client} calls a write of {written} and gets no answer")
        }
        _ => {
            let known = known_words(ending);
            format!(in alloc; "{client} writes {written}{known}")
        }
    }
}

// A delete by a client.
fn deleted_by(
    alloc: Global,
    client: &str,
    key: &str,
    ending: Option<Ending>,
) -> Result<String, AllocError> {
    match ending {
        Some(Ending::Lost) => {
            format!(in alloc; "{client} calls a delete of {key} and gets no answer")
        }
        _ => {
            let known = known_words(ending);
            format!(in alloc; "{client} deletes {key}{known}")
        }
    }
}

// A read by a client.
fn read_by<T: LogTables>(
    alloc: Global,
    tables: &T,
    client: &str,
    key: &str,
    ending: Option<Ending>,
) -> Result<String, AllocError> {
    match ending {
        Some(Ending::Got(value)) => {
            let value = value_name(alloc, tables, value)?;
            format!(in alloc; "{client} reads {value} from {key}")
        }
        Some(Ending::GotNothing) => format!(in alloc; "{client} finds nothing at {key}"),
        _ => {
            let known = known_words(ending);
            format!(in alloc; "{client} reads {key}{known}")
        }
    }
}

// What is said of a call that did not end.
fn known_words(ending: Option<Ending>) -> &'static str {
    match ending {
        Some(_) => "",
        None => ", and its return is not known",
    }
}

/// What a lost write or delete does in its own session: first it waits for all that its client called before, and then it takes effect.
pub(crate) fn fork_words<T: LogTables>(
    alloc: Global,
    tables: &T,
    stood: StoodFor,
    is_effect: bool,
) -> Result<String, AllocError> {
    let client = client_words(alloc, tables, stood.client)?;
    match stood.call {
        ClientCall::WriteTo(key, value) if is_effect => {
            let written = write_words(alloc, tables, key, value)?;
            let words = format!(in alloc; "the lost write of {written} by {client} takes effect")?;
            with_notes(alloc, tables, words, stood.place)
        }
        ClientCall::DeleteOf(key) if is_effect => {
            let key = key_words(alloc, tables, key)?;
            let words = format!(in alloc; "the lost delete of {key} by {client} takes effect")?;
            with_notes(alloc, tables, words, stood.place)
        }
        call => {
            let lost = lost_call(call);
            format!(in alloc;
                "the {lost} of {client} comes after all that {client} had called before it"
            )
        }
    }
}

/// What a call is called that was lost.
pub(crate) fn lost_call(call: ClientCall) -> &'static str {
    match call {
        ClientCall::DeleteOf(_) => "lost delete",
        ClientCall::WriteTo(_, _) | ClientCall::ReadOf(_) => "lost write",
    }
}

/// The label of a call in a picture.
pub(crate) fn call_label<T: LogTables>(
    alloc: Global,
    tables: &T,
    stood: StoodFor,
) -> Result<String, AllocError> {
    match stood.call {
        ClientCall::WriteTo(key, value) => {
            let written = write_label(alloc, tables, key, value)?;
            let end = end_label(stood.ending);
            format!(in alloc; "{written}{end}")
        }
        ClientCall::ReadOf(key) => {
            let key = key_name(alloc, tables, key)?;
            read_label(alloc, tables, &key, stood.ending)
        }
        ClientCall::DeleteOf(key) => {
            let key = key_name(alloc, tables, key)?;
            let end = end_label(stood.ending);
            format!(in alloc; "del {key}{end}")
        }
    }
}

// The label of a write.
fn write_label<T: LogTables>(
    alloc: Global,
    tables: &T,
    key: u32,
    value: u32,
) -> Result<String, AllocError> {
    let key = key_name(alloc, tables, key)?;
    let value = value_name(alloc, tables, value)?;
    format!(in alloc; "w {key} = {value}")
}

// The label of a read.
fn read_label<T: LogTables>(
    alloc: Global,
    tables: &T,
    key: &str,
    ending: Option<Ending>,
) -> Result<String, AllocError> {
    match ending {
        Some(Ending::Got(value)) => {
            let value = value_name(alloc, tables, value)?;
            format!(in alloc; "r {key} → {value}")
        }
        Some(Ending::GotNothing) => format!(in alloc; "r {key} → nothing"),
        _ => format!(in alloc; "r {key} → ?"),
    }
}

// What the label of a write or a delete says of its end.
fn end_label(ending: Option<Ending>) -> &'static str {
    match ending {
        Some(Ending::Lost) => " → lost",
        Some(_) => "",
        None => " → ?",
    }
}

/// The label of an operation of the own session of a lost write or delete.
pub(crate) fn fork_label<T: LogTables>(
    alloc: Global,
    tables: &T,
    stood: StoodFor,
    is_effect: bool,
) -> Result<String, AllocError> {
    match stood.call {
        ClientCall::WriteTo(key, value) if is_effect => write_label(alloc, tables, key, value),
        ClientCall::DeleteOf(key) if is_effect => {
            let key = key_name(alloc, tables, key)?;
            format!(in alloc; "del {key}")
        }
        _ => {
            let line = tables.line(stood.place);
            format!(in alloc; "after the call of line {line}")
        }
    }
}
