//! Notes of calls. No history has them: they are kept to be shown.

ghost use Rattle.std.specs.Prelude.{IfOk, IfSome, string_bytes};
ghost use Rattle.log_reader.specs.Shown.{IsShown};

use crate::shown::push_json;
use indexmap::IndexMap;
use log_events::Event;
use serde_json::Value;
use std::alloc::{AllocError, Global};

/// A note of a call.
#[derive(Drop)]
pub struct Note {
    /// The number of the line that has it, from 1.
    pub line: u64,
    /// It, as a JSON text in which no character disturbs a terminal.
    pub text: String,
}

// Where a note is.
#[derive(Clone, Copy)]
struct Noted {
    line: u64,
    // Its text, among those of all notes.
    begin: usize,
    end: usize,
}

/// The notes of a log.
#[derive(Drop)]
pub(crate) struct Notes {
    is_kept: bool,
    /// For each client the place at which its last call began.
    begun: Vec<u32>,
    /// The place at which the call of the last event began.
    call: u32,
    /// By the place at which a call began, and by whether it is a note of its end.
    noted: IndexMap<u64, Noted>,
    /// The texts of all notes, one after the other.
    texts: String,
}

// The note on the begin or on the end of the call that began at a place.
fn key_of(call: u32, is_end: bool) -> u64 {
    let twice = 2 * u64::from(call);
    if is_end { twice + 1 } else { twice }
}

impl Notes {
    /// No notes, and whether those that are added are kept.
    pub(crate) fn new(alloc: Global, is_kept: bool) -> Notes {
        Notes {
            is_kept,
            begun: Vec::new(alloc),
            call: 0,
            noted: IndexMap::new(alloc),
            texts: String::new(alloc),
        }
    }

    /// Takes in the event that comes next, at a place.
    pub(crate) fn follow(&mut self, event: Event, place: u32) -> Result<(), AllocError> {
        if !self.is_kept {
            return Ok(());
        }
        match event {
            Event::Starts(_, _) => Ok(()),
            Event::Begins(client, _) => self.begin(client, place),
            Event::Ends(client, _) => {
                if let Some(call) = self.begun.get(client as usize) {
                    self.call = *call;
                }
                Ok(())
            }
        }
    }

    // A call of a client begins at a place.
    fn begin(&mut self, client: u32, place: u32) -> Result<(), AllocError> {
        let client = client as usize;
        self.call = place;
        if client >= self.begun.len() {
            self.begun.resize(client + 1, 0)?;
        }
        self.begun[client] = place;
        Ok(())
    }

    /// Adds the note on the line of the last event. O(n) for n bytes.
    pub(crate) fn add(
        &mut self,
        alloc: Global,
        note: &Value,
        is_end: bool,
        line: u64,
    ) -> Result<(), AllocError> {
        if !self.is_kept {
            return Ok(());
        }
        let text = note.to_string(alloc)?;
        let begin = self.texts.len();
        self.texts.push_str(&text)?;
        let noted = Noted {
            line,
            begin,
            end: self.texts.len(),
        };
        self.noted.insert(key_of(self.call, is_end), noted)?;
        Ok(())
    }

    /// The note on the begin or on the end of the call that began at a place, if there is one.
    ///
    /// Fails for want of memory alone. O(n) for a note of n bytes.
    #[tactic(auto, using(crate::proofs::ShownLaws::shown_none))]
    pub(crate) fn of_call(
        &self,
        alloc: Global,
        call: u32,
        is_end: bool,
    ) -> Result<Option<Note>, AllocError>
        ensures { IfOk result (λ o. IfSome o (λ note. IsShown (string_bytes note.text))) }
    {
        let Some(noted) = self.noted.get(&key_of(call, is_end)) else {
            return Ok(None);
        };
        let mut text = String::new(alloc);
        if let Some(json) = self.texts.get(noted.begin..noted.end) {
            push_json(&mut text, json)?;
        }
        Ok(Some(Note {
            line: noted.line,
            text,
        }))
    }
}
