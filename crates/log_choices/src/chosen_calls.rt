//! Which operations the calls of a log have, by a choice of what its null reads saw.

ghost use Rattle.std.specs.Prelude.{◌≡◌, ◌<◌, ◌≤◌, ℕ, length, Contains, IfOk, Some, map};
ghost use Rattle.model_objects.specs.Table.{IsRising};
ghost use Rattle.log_events.specs.declared.event.ClientCall.TheVariants.{WriteTo, ReadOf, DeleteOf};
ghost use Rattle.log_events.specs.declared.event.Ending.TheVariants.{GotNothing, Lost as IsLost};
ghost use Rattle.log_events.specs.Events.{run_calls};
ghost use Rattle.log_events.specs.Histories.{is_returned as returned_in};
ghost use Rattle.log_events.specs.Steps.CallKinds.{missed_keys};
ghost use Rattle.log_choices.specs.ChoiceTables.{choice_in, seen_of};
ghost use Rattle.log_choices.specs.ChosenHistories.{fork_by, is_seen as seen_by, operation_by, seen_value};
ghost use Rattle.log_choices.specs.Steps.ChosenCalls.{IsLostWrite, client_rows};

use crate::client_calls::client_calls;
use crate::entries::fork_of;
use crate::lost_calls::{returned_writes, seen_deletes};
use crate::null_reads::NullReads;
use crate::seen::Seen;
use judge_memory::LongEntry;
use log_events::{
    ClientCall, Ending, EventLog, LoggedCall, MAX_EVENTS, MAX_NAME, read_of, write_of,
};
use model_objects::{RegisterRet, Table};
use std::alloc::{AllocError, Global};
use std::marker::Model;

/// What decides which operations the calls of a log have by a choice.
#[derive(Drop)]
pub(crate) struct ChosenCalls<'a> {
    reads: NullReads<'a>,
    /// The places of lost writes whose value was returned, in order.
    returned: Vec<u32>,
    /// The keys of null reads with the places of the deletes that they saw, in order.
    seen: Vec<(u32, u32)>,
}

impl<'a> Model for ChosenCalls<'a> {
    ghost use Rattle.std.specs.Prelude.{ℕ, List};
    ghost use Rattle.log_events.specs.declared.event.Event.{Event};
    ghost use Rattle.log_choices.specs.declared.seen.Seen.{Seen};
    ghost use Rattle.log_choices.specs.ChoiceTables.{choice_in};
    ghost use Rattle.log_choices.specs.Steps.ChosenCalls.{AreChosen};

    ghost Value = { List Event × List (ℕ × Seen) };

    ghost view = { λ calls. calls.reads };

    ghost invariant = { λ calls. AreChosen calls.reads.0 (choice_in calls.reads.1) calls.returned.items calls.seen.items };
}

impl<'a> ChosenCalls<'a> {
    /// The calls of a log by a choice whose places rise. O(n log n) for n calls.
    pub(crate) fn of(
        alloc: Global,
        log: &'a EventLog,
        choice: &'a Table<Seen>,
    ) -> Result<ChosenCalls<'a>, AllocError>
        requires { IsRising choice.now }
        ensures { IfOk result (λ calls. calls ≡ (log.now, choice.now)) }
    {
        // It says that the calls are small.
        let _calls = log.calls();
        let returned = returned_writes(alloc, log)?;
        let reads = NullReads::of(alloc, log, choice)?;
        let seen = seen_deletes(alloc, &reads)?;
        Ok(ChosenCalls {
            reads,
            returned,
            seen,
        })
    }

    /// The calls of the log.
    pub(crate) fn calls(&self) -> &[LoggedCall]
        ensures exact { result.now ≡ run_calls self.now.0 }
        ensures few { length result.now ≤ MAX_EVENTS }
    {
        self.reads.log().calls()
    }

    /// The calls of each client, in the order of their begins. O(n) for n calls and clients.
    pub(crate) fn client_calls(&self, alloc: Global) -> Result<Vec<Vec<LoggedCall>>, AllocError>
        ensures { IfOk result (λ rows. map (λ row. row.items) rows.items ≡ client_rows self.now.0) }
    {
        client_calls(alloc, self.reads.log())
    }

    /// The operation of a call in the session of its client, if there is one. O(log n) for n calls.
    pub(crate) fn operation(&self, call: &LoggedCall) -> Option<LongEntry>
        requires { Contains (run_calls self.now.0) call.now }
        ensures { result ≡ operation_by self.now.0 (choice_in self.now.1) call.now.place call.now.call call.now.ending }
    {
        // It opens the value, so that the calls of the log are known to be small.
        let _reads = &self.reads;
        match call.call() {
            ClientCall::WriteTo(key, value) => self.written(
                call.place(),
                key,
                value,
                call.ending(),
            ),
            ClientCall::ReadOf(key) => self.read(call.place(), key, call.ending()),
            ClientCall::DeleteOf(key) => self.deletion(call.place(), key, call.ending()),
        }
    }

    /// The fork of a call: of a lost write whose value was returned, or of a lost delete that some read saw. O(log n) for n calls.
    pub(crate) fn fork(&self, call: &LoggedCall) -> Option<[LongEntry; 2]>
        requires { Contains (run_calls self.now.0) call.now }
        ensures { result ≡ fork_by self.now.0 (choice_in self.now.1) call.now.place call.now.call call.now.ending }
    {
        // It opens the value, so that the calls of the log are known to be small.
        let _reads = &self.reads;
        let place = call.place();
        match (call.call(), call.ending()) {
            (ClientCall::WriteTo(key, value), Some(Ending::Lost)) if self.is_returned(place) => {
                Some(fork_of(place, key, 2 * u64::from(value) + 1))
            }
            (ClientCall::DeleteOf(key), Some(Ending::Lost)) if self.is_seen(key, place) => {
                Some(fork_of(place, key, 2 * u64::from(place) + 2))
            }
            _ => None,
        }
    }

    /// The operation of a write.
    fn written(&self, place: u32, key: u32, value: u32, ending: Option<Ending>) -> Option<LongEntry>
        requires small_key { key ≤ MAX_NAME }
        requires small_place { place < MAX_EVENTS }
        requires lost { ending ≡ Some IsLost → IsLostWrite self.now.0 place key value }
        ensures { result ≡ operation_by self.now.0 (choice_in self.now.1) place (WriteTo key value) ending }
    {
        let variable = 2 * key;
        let numbered = 2 * u64::from(value) + 1;
        match ending {
            None => Some(write_of(variable, numbered, None)),
            Some(Ending::Answered) => Some(write_of(variable, numbered, Some(RegisterRet::Done))),
            Some(Ending::Lost) if self.is_returned(place) => {
                Some(write_of(2 * place + 1, 1, Some(RegisterRet::Done)))
            }
            _ => None,
        }
    }

    /// The operation of a delete.
    fn deletion(&self, place: u32, key: u32, ending: Option<Ending>) -> Option<LongEntry>
        requires small_key { key ≤ MAX_NAME }
        requires small_place { place < MAX_EVENTS }
        ensures { result ≡ operation_by self.now.0 (choice_in self.now.1) place (DeleteOf key) ending }
    {
        let variable = 2 * key;
        let numbered = 2 * u64::from(place) + 2;
        match ending {
            None => Some(write_of(variable, numbered, None)),
            Some(Ending::Answered) => Some(write_of(variable, numbered, Some(RegisterRet::Done))),
            Some(Ending::Lost) if self.is_seen(key, place) => {
                Some(write_of(2 * place + 1, 1, Some(RegisterRet::Done)))
            }
            _ => None,
        }
    }

    /// The operation of a read.
    fn read(&self, place: u32, key: u32, ending: Option<Ending>) -> Option<LongEntry>
        requires small_key { key ≤ MAX_NAME }
        requires missed { ending ≡ Some GotNothing → Contains (missed_keys (run_calls self.now.0)) key }
        ensures { result ≡ operation_by self.now.0 (choice_in self.now.1) place (ReadOf key) ending }
    {
        let variable = 2 * key;
        match ending {
            None => Some(read_of(variable, None)),
            Some(Ending::Got(value)) => {
                let numbered = 2 * u64::from(value) + 1;
                Some(read_of(variable, Some(RegisterRet::Value(numbered))))
            }
            Some(Ending::GotNothing) => self.missed_read(place, key),
            _ => None,
        }
    }

    /// The operation of a read that got nothing.
    fn missed_read(&self, place: u32, key: u32) -> Option<LongEntry>
        requires small_key { key ≤ MAX_NAME }
        requires missed { Contains (missed_keys (run_calls self.now.0)) key }
        ensures { result ≡ operation_by self.now.0 (choice_in self.now.1) place (ReadOf key) (Some GotNothing) }
    {
        match self.reads.saw(place, key) {
            None => None,
            Some(seen) => Some(read_of(2 * key, Some(RegisterRet::Value(value_of(seen))))),
        }
    }

    /// Whether some read returned the value of the lost write that began at a place. O(log n) for n calls.
    fn is_returned(&self, place: u32) -> bool
        ensures { (x v : ℕ) → IsLostWrite self.now.0 place x v → result ≡ returned_in self.now.0 x v }
    {
        self.returned.binary_search(&place).is_ok()
    }

    /// Whether some read of a key saw the delete that began at a place. O(log n) for n calls.
    fn is_seen(&self, key: u32, place: u32) -> bool
        ensures { result ≡ seen_by self.now.0 (choice_in self.now.1) key place }
    {
        self.seen.binary_search(&(key, place)).is_ok()
    }
}

/// What a read returned that saw this.
fn value_of(seen: Seen) -> u64
    ensures { result ≡ seen_value (seen_of seen) }
{
    match seen {
        Seen::Start => 0,
        Seen::Delete(place) => 2 * u64::from(place) + 2,
    }
}
