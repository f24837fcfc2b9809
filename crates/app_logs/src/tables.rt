//! What a log that was read says about the operations of its history, and about its names.

ghost use Rattle.std.specs.Prelude.{◌≡◌, IfOk, string_bytes};
ghost use Rattle.log_choices.specs.ChoiceTables.{choice_in};
ghost use Rattle.log_choices.specs.ChosenOrigins.{origins_by};
ghost use Rattle.log_reader.specs.EventLines.{line_at as line_in};
ghost use Rattle.show_log_names.specs.TableNames.{IsNameAt};

use crate::logged_run::LoggedRun;
use json_histories::OpId;
use log_choices::LackingRead;
use log_reader::{EventReader, Names, Note};
use show_log_names::{CallNote, LogTables, StoodFor};
use std::alloc::{AllocError, Global};

/// The line of the event at a place of a log, or 0 where there is none.
pub(crate) fn line_at(reader: &EventReader, place: u32) -> u32
    ensures { result ≡ line_in reader.now.log place }
{
    reader.events_have_lines();
    if place < reader.log().events() {
        reader.line_of(place as usize)
    } else {
        0
    }
}

/// The name of this number, or the number itself where there is none.
pub(crate) fn name_in(alloc: Global, names: &Names, number: u32) -> Result<String, AllocError>
    ensures { IfOk result (λ text. IsNameAt names.now number (string_bytes text)) }
{
    if (number as usize) < names.len() {
        names.text(alloc, number)
    } else {
        format!(in alloc; "{number}")
    }
}

impl LogTables for LoggedRun {
    ghost log = { λ run. run.log };

    ghost calls = { λ run. origins_by run.log.events (choice_in run.saw) };

    fn stood_for(&self, op: OpId) -> Option<StoodFor> {
        let session = op.session_place();
        if session >= self.calls.len() {
            return None;
        }
        let call = self.calls.get(session).get(op.place())?;
        Some(StoodFor {
            client: call.client(),
            place: call.place(),
            call: call.call(),
            ending: call.ending(),
        })
    }

    fn clients(&self) -> u64 {
        u64::from(self.reader.log().clients())
    }

    fn line(&self, place: u32) -> u64 {
        u64::from(line_at(&self.reader, place))
    }

    fn client_name(&self, alloc: Global, client: u32) -> Result<String, AllocError> {
        name_in(alloc, self.reader.clients(), client)
    }

    fn key_name(&self, alloc: Global, key: u32) -> Result<String, AllocError> {
        name_in(alloc, self.reader.keys(), key)
    }

    fn value_name(&self, alloc: Global, value: u32) -> Result<String, AllocError> {
        name_in(alloc, self.reader.values(), value)
    }

    fn note(
        &self,
        alloc: Global,
        place: u32,
        is_end: bool,
    ) -> Result<Option<CallNote>, AllocError> {
        match self.reader.note(alloc, place, is_end)? {
            Some(Note { line, text }) => Ok(Some(CallNote { line, text })),
            None => Ok(None),
        }
    }

    fn left_out(&self) -> &[(u32, u32)] {
        self.left_out.as_slice()
    }

    fn asked(&self) -> u64 {
        self.saw.len() as u64
    }

    fn lacking(&self) -> Option<&LackingRead> {
        self.lacking.as_ref()
    }
}
