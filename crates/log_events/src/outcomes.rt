//! What decides which operations the calls of a log have in its history.

ghost use Rattle.std.specs.Prelude.{◌≡◌, ◌<◌, ◌≤◌, ℕ, List, length, Contains, IfOk, Some};
ghost use Rattle.log_events.specs.declared.event.ClientCall.TheVariants.{WriteTo, ReadOf, DeleteOf};
ghost use Rattle.log_events.specs.declared.event.Ending.TheVariants.{Lost as IsLost};
ghost use Rattle.log_events.specs.declared.event.Event.{Event as Happened};
ghost use Rattle.log_events.specs.Events.{run_calls};
ghost use Rattle.log_events.specs.Histories.{clients as clients_of, fork as fork_in, operation as operation_in};
ghost use Rattle.log_events.specs.Histories.{is_deleted as deleted_in, is_returned as returned_in};
ghost use Rattle.log_events.specs.LeftOut.{AreLeftOut};
ghost use Rattle.log_events.specs.Steps.CallKinds.{lost_pairs};

use crate::deleted_keys::{deleted_keys, missed_reads};
use crate::entries::{read_of, write_of};
use crate::event_log::EventLog;
use crate::limits::{MAX_EVENTS, MAX_NAME};
use crate::logged_call::LoggedCall;
use crate::returned_values::{is_listed, returned_values};
use crate::{ClientCall, Ending};
use judge_memory::LongEntry;
use model_objects::RegisterRet;
use std::alloc::{AllocError, Global};
use std::marker::Model;

/// Which values of lost writes were returned, and which keys some delete names.
#[derive(Drop)]
pub(crate) struct Outcomes<'a> {
    log: &'a EventLog,
    /// Keys with values of lost writes that a read returned, in order.
    returned: Vec<(u32, u32)>,
    /// The keys of deletes that did not fail, each once, in order.
    deleted: Vec<u32>,
}

impl<'a> Model for Outcomes<'a> {
    ghost use Rattle.std.specs.Prelude.{List};
    ghost use Rattle.log_events.specs.declared.event.Event.{Event};
    ghost use Rattle.log_events.specs.Steps.Outcomes.{AreOutcomes};

    ghost Value = { List Event };

    ghost view = { λ o. o.log.now };

    ghost invariant = { λ o. AreOutcomes o.log.now o.returned.items o.deleted.items };
}

impl<'a> Outcomes<'a> {
    /// The outcomes of a log. O(n log n) for n calls.
    pub(crate) fn of(alloc: Global, log: &'a EventLog) -> Result<Outcomes<'a>, AllocError>
        ensures { IfOk result (λ outcomes. outcomes ≡ log.now) }
    {
        let calls = log.calls();
        let returned = returned_values(alloc, calls)?;
        let deleted = deleted_keys(alloc, calls)?;
        Ok(Outcomes {
            log,
            returned,
            deleted,
        })
    }

    /// The calls of the log.
    pub(crate) fn calls(&self) -> &[LoggedCall]
        ensures exact { result.now ≡ run_calls self.now }
        ensures few { length result.now ≤ MAX_EVENTS }
    {
        self.log.calls()
    }

    /// How many sessions the clients have.
    pub(crate) fn clients(&self) -> usize
        ensures { result ≡ clients_of self.now }
    {
        self.log.clients() as usize
    }

    /// The operation of a call in the session of its client, if there is one. O(log n) for n calls.
    pub(crate) fn operation(&self, call: &LoggedCall) -> Option<LongEntry>
        requires { Contains (run_calls self.now) call.now }
        ensures { result ≡ operation_in self.now call.now.place call.now.call call.now.ending }
    {
        // It opens the value, so that the calls of the log are known to be small.
        let _log = &self.log;
        match call.call() {
            ClientCall::WriteTo(key, value) => self.written(
                call.place(),
                key,
                value,
                call.ending(),
            ),
            ClientCall::ReadOf(key) => self.read(key, call.ending()),
            ClientCall::DeleteOf(key) => deletion(call.place(), key, call.ending()),
        }
    }

    /// The fork of a call: for a lost write whose value was returned, the read of its mark and the write. O(log n) for n calls.
    pub(crate) fn fork(&self, call: &LoggedCall) -> Option<[LongEntry; 2]>
        requires { Contains (run_calls self.now) call.now }
        ensures { result ≡ fork_in self.now call.now.place call.now.call call.now.ending }
    {
        // It opens the value, so that the calls of the log are known to be small.
        let _log = &self.log;
        if let ClientCall::WriteTo(key, value) = call.call()
            && let Some(Ending::Lost) = call.ending()
            && self.is_returned(key, value)
        {
            let mark = read_of(2 * call.place() + 1, Some(RegisterRet::Value(1)));
            let write = write_of(2 * key, 2 * u64::from(value) + 1, None);
            return Some([mark, write]);
        }
        None
    }

    /// The operation of a write.
    fn written(&self, place: u32, key: u32, value: u32, ending: Option<Ending>) -> Option<LongEntry>
        requires small_key { key ≤ MAX_NAME }
        requires small_place { place < MAX_EVENTS }
        requires lost { ending ≡ Some IsLost → Contains (lost_pairs (run_calls self.now)) (key, value) }
        ensures { result ≡ operation_in self.now place (WriteTo key value) ending }
    {
        let variable = 2 * key;
        let numbered = 2 * u64::from(value) + 1;
        match ending {
            None => Some(write_of(variable, numbered, None)),
            Some(Ending::Answered) => Some(write_of(variable, numbered, Some(RegisterRet::Done))),
            Some(Ending::Lost) if self.is_returned(key, value) => {
                Some(write_of(2 * place + 1, 1, Some(RegisterRet::Done)))
            }
            _ => None,
        }
    }

    /// The operation of a read.
    fn read(&self, key: u32, ending: Option<Ending>) -> Option<LongEntry>
        requires { key ≤ MAX_NAME }
        ensures { (place : ℕ) → result ≡ operation_in self.now place (ReadOf key) ending }
    {
        let variable = 2 * key;
        match ending {
            None => Some(read_of(variable, None)),
            Some(Ending::Got(value)) => {
                let numbered = 2 * u64::from(value) + 1;
                Some(read_of(variable, Some(RegisterRet::Value(numbered))))
            }
            Some(Ending::GotNothing) if !self.is_deleted(key) => {
                Some(read_of(variable, Some(RegisterRet::Value(0))))
            }
            _ => None,
        }
    }

    /// Whether some read returned this value of a lost write of this key.
    fn is_returned(&self, key: u32, value: u32) -> bool
        requires { Contains (lost_pairs (run_calls self.now)) (key, value) }
        ensures { result ≡ returned_in self.now key value }
    {
        is_listed(&self.returned, key, value)
    }

    /// Whether some delete of this key did not fail.
    fn is_deleted(&self, key: u32) -> bool
        ensures { result ≡ deleted_in self.now key }
    {
        self.deleted.binary_search(&key).is_ok()
    }

    /// The keys with reads that the history leaves out, in order, each with how many.
    pub(crate) fn left_out(&self, alloc: Global) -> Result<Vec<(u32, u32)>, AllocError>
        ensures { IfOk result (λ counts. AreLeftOut self.now counts.items) }
    {
        missed_reads(alloc, self.calls(), &self.deleted)
    }
}

/// The operation of a delete.
fn deletion(place: u32, key: u32, ending: Option<Ending>) -> Option<LongEntry>
    requires small_key { key ≤ MAX_NAME }
    requires small_place { place < MAX_EVENTS }
    ensures { (es : List Happened) → result ≡ operation_in es place (DeleteOf key) ending }
{
    let variable = 2 * key;
    let numbered = 2 * u64::from(place) + 2;
    match ending {
        None => Some(write_of(variable, numbered, None)),
        Some(Ending::Answered) => Some(write_of(variable, numbered, Some(RegisterRet::Done))),
        _ => None,
    }
}
