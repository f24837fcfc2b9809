//! A call of a log.

ghost use Rattle.std.specs.Prelude.{◌≡◌, Some, None};
ghost use Rattle.log_events.specs.Steps.CallKinds.{deleted_key, got_pair, lost_pair, missed_key};

use crate::{ClientCall, Ending};
use std::marker::Model;

/// A call of a log.
#[derive(Clone, Copy)]
pub struct LoggedCall {
    client: u32,
    place: u32,
    call: ClientCall,
    ending: Option<Ending>,
}

impl Model for LoggedCall {
    ghost use Rattle.log_events.specs.Events.{Call};

    ghost Value = { Call };

    ghost view = { λ c. record { client = c.client; place = c.place; call = c.call; ending = c.ending } };

    ghost inverse = { λ a. record { client = a.client; place = a.place; call = a.call; ending = a.ending } };
}

impl LoggedCall {
    /// A call that began at a place and has not ended.
    pub(crate) fn begun(client: u32, place: u32, call: ClientCall) -> LoggedCall
        ensures { result ≡ record { client = client; place = place; call = call; ending = None } }
    {
        LoggedCall {
            client,
            place,
            call,
            ending: None,
        }
    }

    /// The call, with its ending.
    pub(crate) fn ended(self, ending: Ending) -> LoggedCall
        ensures { result ≡ record { client = self.client; place = self.place; call = self.call; ending = Some ending } }
    {
        LoggedCall {
            ending: Some(ending),
            ..self
        }
    }

    /// The client that called.
    pub fn client(&self) -> u32
        ensures { result ≡ self.now.client }
    {
        self.client
    }

    /// The place of its begin among the events of the log, from 0.
    pub fn place(&self) -> u32
        ensures { result ≡ self.now.place }
    {
        self.place
    }

    /// What was called.
    pub fn call(&self) -> ClientCall
        ensures { result ≡ self.now.call }
    {
        self.call
    }

    /// How it ended, or `None` where it is pending at the end of the log.
    pub fn ending(&self) -> Option<Ending>
        ensures { result ≡ self.now.ending }
    {
        self.ending
    }

    /// The key and value of a lost write.
    pub(crate) fn lost_pair(&self) -> Option<(u32, u32)>
        ensures { result ≡ lost_pair self.now.call self.now.ending }
    {
        match (self.call, self.ending) {
            (ClientCall::WriteTo(key, value), Some(Ending::Lost)) => Some((key, value)),
            _ => None,
        }
    }

    /// The key and value of a read that got a value.
    pub(crate) fn got_pair(&self) -> Option<(u32, u32)>
        ensures { result ≡ got_pair self.now.call self.now.ending }
    {
        match (self.call, self.ending) {
            (ClientCall::ReadOf(key), Some(Ending::Got(value))) => Some((key, value)),
            _ => None,
        }
    }

    /// The key of a delete that did not fail.
    pub fn deleted_key(&self) -> Option<u32>
        ensures { result ≡ deleted_key self.now.call self.now.ending }
    {
        match (self.call, self.ending) {
            (ClientCall::DeleteOf(_), Some(Ending::Failed)) => None,
            (ClientCall::DeleteOf(key), _) => Some(key),
            _ => None,
        }
    }

    /// The key of a read that got nothing.
    pub fn missed_key(&self) -> Option<u32>
        ensures { result ≡ missed_key self.now.call self.now.ending }
    {
        match (self.call, self.ending) {
            (ClientCall::ReadOf(key), Some(Ending::GotNothing)) => Some(key),
            _ => None,
        }
    }
}
