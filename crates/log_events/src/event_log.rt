//! The log of events.

ghost use Rattle.std.specs.Prelude.{◌≡◌, ◌↔◌, ◌<◌, ◌≤◌, ◌∷◌, ◌++◌, ℕ, List, [], All, length, filter_map, vec_len, slice_get, slice_index};
ghost use Rattle.std.specs.Prelude.{IsTrue, IfOk, IfNone, IfSome, None, OnOk, OnErr, Err, Some};
ghost use Rattle.judge_memory.specs.LongHistories.{IsLongHistory};
ghost use Rattle.model_objects.specs.Table.{IsRising};
ghost use Rattle.log_events.specs.declared.event.ClientCall.{ClientCall as Called};
ghost use Rattle.log_events.specs.declared.event.Ending.{Ending as Ended};
ghost use Rattle.log_events.specs.declared.event.Event.TheVariants.{Starts, Begins, Ends};
ghost use Rattle.log_events.specs.Events.{Call, Fits, IsAllowed, IsEnded, MayStand, run_calls};
ghost use Rattle.log_events.specs.Histories.{clients, history_of, start_entry};
ghost use Rattle.log_events.specs.Shapes.{called_key};
ghost use Rattle.log_events.specs.Pending.{IsPending, MayFollow};
ghost use Rattle.log_events.specs.Origins.{AreOrigins, origins_of as origins_in};
ghost use Rattle.log_events.specs.LeftOut.{AreLeftOut};
ghost use Rattle.log_events.specs.Kept.{IsAbove, IsSmallCall};

use crate::limits::{MAX_EVENTS, MAX_NAME};
use crate::logged_call::LoggedCall;
use crate::origins::origins_of;
use crate::outcomes::Outcomes;
use crate::past_events::PastEvents;
use crate::push_error::PushError;
use crate::sessions::sessions_of;
use crate::{ClientCall, Ending, Event};
use judge_memory::LongHistory;
use model_objects::Table;
use order_causal::Rows;
use std::alloc::{AllocError, Global};
use std::marker::Model;

/// The events of a memory's clients, as they come, each where it may come next.
///
/// It keeps the calls with their endings and the places of these, 36 bytes each, the starts, and 4 bytes a client.
#[derive(Drop)]
pub struct EventLog {
    past: PastEvents,
    starts: Table<u64>,
    calls: Vec<LoggedCall>,
    /// For each call one more than the place of its end, or 0 where it is pending; 0 past them.
    ends: Vec<u32>,
    /// For each client one more than the number of its pending call, or 0; none past the end.
    pending: Vec<u32>,
    /// One more than the greatest number of a client that called.
    clients: u32,
    /// How many events there are.
    events: u32,
}

impl Model for EventLog {
    ghost use Rattle.std.specs.Prelude.{List};
    ghost use Rattle.log_events.specs.declared.event.Event.{Event};
    ghost use Rattle.log_events.specs.Kept.{AreEnds, IsKept};

    ghost Value = { List Event };

    ghost view = { λ log. log.past.events };

    ghost invariant = { λ log. IsKept log.past.events log.starts log.calls.items log.pending.items log.clients log.events
        × AreEnds log.past.events log.ends.items };
}

impl EventLog {
    /// A log of no events.
    pub fn new(alloc: Global) -> EventLog
        ensures { result ≡ [] }
    {
        EventLog {
            past: PastEvents::new(),
            starts: Table::new(alloc),
            calls: Vec::new(alloc),
            ends: Vec::new(alloc),
            pending: Vec::new(alloc),
            clients: 0,
            events: 0,
        }
    }

    /// Takes the event that comes next.
    ///
    /// Fails with `NotAllowed` where it may not come next, and with `Memory` for want of memory, where the log has [`MAX_EVENTS`] events,
    /// and where a client or a key has a number above [`MAX_NAME`]. After an error the log is as it was. O(1) on average, where clients
    /// are numbered as they are met.
    pub fn push(&mut self, event: Event) -> Result<(), PushError>
        ensures ok { OnOk result (self.new ≡ self.old ++ event ∷ []) }
        ensures not_allowed { (result ≡ Err PushError.NotAllowed) ↔ ¬ MayStand (self.old ++ event ∷ []) (length self.old) event }
        ensures err { OnErr result (self.new ≡ self.old) }
    {
        if !self.may_follow(event) {
            return Err(PushError::NotAllowed);
        }
        if self.events == MAX_EVENTS {
            return Err(PushError::Memory);
        }
        match self.put(event) {
            Ok(()) => Ok(()),
            Err(_) => Err(PushError::Memory),
        }
    }

    /// Whether an event may come next. O(1).
    fn may_follow(&self, event: Event) -> bool
        ensures { IsTrue result ↔ MayFollow self.now event }
    {
        match event {
            Event::Starts(key, _) => self.calls.is_empty() && is_above(&self.starts, key),
            Event::Begins(client, _) => pending_number(&self.pending, client) == 0,
            Event::Ends(client, ending) => self.may_end(client, ending),
        }
    }

    /// Whether the pending call of a client may end so. O(1).
    fn may_end(&self, client: u32, ending: Ending) -> bool
        ensures { IsTrue result ↔ MayFollow self.now (Ends client ending) }
    {
        let number = pending_number(&self.pending, client);
        number != 0 && fits(self.calls[number as usize - 1].call(), ending)
    }

    /// Puts an event after the others.
    fn put(&mut self, event: Event) -> Result<(), AllocError>
        requires follows { MayFollow self.old event }
        requires room { length self.old < MAX_EVENTS }
        ensures ok { OnOk result (self.new ≡ self.old ++ event ∷ []) }
        ensures err { OnErr result (self.new ≡ self.old) }
    {
        match event {
            Event::Starts(key, value) => self.put_start(key, value),
            Event::Begins(client, call) => self.put_begin(client, call),
            Event::Ends(client, ending) => {
                self.put_end(client, ending);
                Ok(())
            }
        }
    }

    /// Puts a start after the other events.
    fn put_start(&mut self, key: u32, value: u32) -> Result<(), AllocError>
        requires follows { MayFollow self.old (Starts key value) }
        requires room { length self.old < MAX_EVENTS }
        ensures ok { OnOk result (self.new ≡ self.old ++ Starts key value ∷ []) }
        ensures err { OnErr result (self.new ≡ self.old) }
    {
        if key > MAX_NAME {
            return Err(AllocError);
        }
        self.starts.push(2 * key, 2 * u64::from(value) + 1)?;
        self.events += 1;
        self.past = self.past.then(&Event::Starts(key, value));
        Ok(())
    }

    /// Puts the begin of a call after the other events.
    fn put_begin(&mut self, client: u32, call: ClientCall) -> Result<(), AllocError>
        requires follows { MayFollow self.old (Begins client call) }
        requires room { length self.old < MAX_EVENTS }
        ensures ok { OnOk result (self.new ≡ self.old ++ Begins client call ∷ []) }
        ensures err { OnErr result (self.new ≡ self.old) }
    {
        if client > MAX_NAME || key_of(call) > MAX_NAME {
            return Err(AllocError);
        }
        let number = self.calls.len() as u32;
        make_room(&mut self.pending, client)?;
        make_room(&mut self.ends, number)?;
        self.calls
            .push(LoggedCall::begun(client, self.events, call))?;
        self.pending[client as usize] = number + 1;
        self.clients = self.clients.max(client + 1);
        self.events += 1;
        self.past = self.past.then(&Event::Begins(client, call));
        Ok(())
    }

    /// Puts the end of a call after the other events.
    fn put_end(&mut self, client: u32, ending: Ending)
        requires follows { MayFollow self.old (Ends client ending) }
        requires room { length self.old < MAX_EVENTS }
        ensures { self.new ≡ self.old ++ Ends client ending ∷ [] }
    {
        let number = pending_number(&self.pending, client) as usize - 1;
        self.calls[number] = self.calls[number].ended(ending);
        self.ends[number] = self.events + 1;
        self.pending[client as usize] = 0;
        self.events += 1;
        self.past = self.past.then(&Event::Ends(client, ending));
    }

    /// What the type keeps: the events are a log. The method does nothing: what it ensures is the law.
    pub fn events_are_log(&self)
        ensures { IsAllowed self.now }
    {
        let _calls = &self.calls;
    }

    /// What the type keeps: the history that the events represent is within the limits of long histories, whatever its length. The method
    /// does nothing: what it ensures is the law.
    pub fn history_is_long(&self)
        ensures { IsLongHistory (history_of self.now) }
    {
        let _calls = &self.calls;
    }

    /// What the keys hold before the first call: the start of each history of the log.
    pub fn starts(&self) -> &Table<u64>
        ensures { result.now ≡ filter_map start_entry self.now }
    {
        &self.starts
    }

    /// A copy of it. O(n) for n starts.
    ///
    /// Fails for want of memory alone.
    pub fn copied_starts(&self, alloc: Global) -> Result<Table<u64>, AllocError>
        ensures { IfOk result (λ starts. starts ≡ filter_map start_entry self.now) }
    {
        copied(alloc, self.starts())
    }

    /// How many events there are.
    pub fn events(&self) -> u32
        ensures count { result ≡ length self.now }
        ensures few { result ≤ MAX_EVENTS }
    {
        self.events
    }

    /// How many sessions the clients have: one more than the greatest number of a client that called.
    pub fn clients(&self) -> u32
        ensures { result ≡ clients self.now }
    {
        self.clients
    }

    /// The calls in the order of their begins.
    pub fn calls(&self) -> &[LoggedCall]
        ensures exact { result.now ≡ run_calls self.now }
        ensures few { length result.now ≤ MAX_EVENTS }
        ensures small { All IsSmallCall result.now }
    {
        self.calls.as_slice()
    }

    /// The place among the events at which a call ended, by its number among the calls; none where it is pending, or there is no such call.
    /// O(1).
    pub fn ended_at(&self, number: u32) -> Option<u32>
        ensures none { IfNone result ((a : Call) → slice_get (run_calls self.now) number ≡ Some a → a.ending ≡ None) }
        ensures some { IfSome result (λ j. (a : Call) → slice_get (run_calls self.now) number ≡ Some a
            → (e : Ended) × IsEnded self.now a.client a.call a.place j e) }
    {
        match self.ends.get(number as usize) {
            Some(link) if *link != 0 => Some(*link - 1),
            _ => None,
        }
    }

    /// The pending call of a client at the end of the log, if it has one. O(1).
    pub fn pending(&self, client: u32) -> Option<ClientCall>
        ensures none { IfNone result ((call : Called) → ¬ IsPending self.now client call) }
        ensures some { IfSome result (IsPending self.now client) }
    {
        let number = pending_number(&self.pending, client);
        if number == 0 {
            None
        } else {
            Some(self.calls[number as usize - 1].call())
        }
    }

    /// The history that the events represent: the clients' sessions, each in the order of begins, and then the forks of lost writes.
    ///
    /// Fails for want of memory, and where the history has more than `judge_memory::MAX_NUMBERS` operations or sessions.
    /// O(n log n) for n calls and clients. Besides the history it takes 4 bytes for each call and each client, 8 for each lost write and
    /// each read of its value, and the calls and operations of one client at a time.
    pub fn history(&self, alloc: Global) -> Result<LongHistory, AllocError>
        ensures { IfOk result (λ h. h ≡ history_of self.now) }
    {
        self.history_is_long();
        let start = self.copied_starts(alloc)?;
        let outcomes = Outcomes::of(alloc, self)?;
        let sessions = sessions_of(alloc, &outcomes)?;
        LongHistory::of(start, sessions)
    }

    /// For each session of the history the calls of its operations, in order. Both operations of a fork are of one call.
    ///
    /// Fails for want of memory alone. O(n log n) for n calls and clients.
    pub fn origins(&self, alloc: Global) -> Result<Rows<LoggedCall>, AllocError>
        ensures exact { IfOk result (λ calls. calls ≡ origins_in self.now) }
        ensures stand { IfOk result (AreOrigins self.now) }
    {
        let outcomes = Outcomes::of(alloc, self)?;
        origins_of(alloc, &outcomes)
    }

    /// The keys with reads that the history leaves out, in order, each with how many: reads that got nothing of a key that some delete
    /// names, so that no write can be named as their source.
    ///
    /// Fails for want of memory alone. O(n log n) for n calls.
    pub fn left_out(&self, alloc: Global) -> Result<Vec<(u32, u32)>, AllocError>
        ensures { IfOk result (λ counts. AreLeftOut self.now counts.items) }
    {
        let outcomes = Outcomes::of(alloc, self)?;
        outcomes.left_out(alloc)
    }
}

/// Whether a key is above those of some starts. O(1).
fn is_above(starts: &Table<u64>, key: u32) -> bool
    requires { IsRising starts.now }
    ensures { IsTrue result ↔ IsAbove starts.now key }
{
    match starts.entries().last() {
        None => true,
        Some(last) => last.0 / 2 < key,
    }
}

/// One more than the number of the pending call of a client, or 0.
fn pending_number(pending: &[u32], client: u32) -> u32
    ensures { result ≡ slice_index pending.now client }
{
    pending.get(client as usize).copied().unwrap_or(0)
}

/// A copy of some starts.
fn copied(alloc: Global, starts: &Table<u64>) -> Result<Table<u64>, AllocError>
    ensures { IfOk result (λ copy. copy ≡ starts.now) }
{
    let mut copy = Table::new(alloc);
    for (key, value) in starts.entries() {
        copy.push(*key, *value)?;
    }
    Ok(copy)
}

/// Makes room in a table of links for that of a number.
fn make_room(links: &mut Vec<u32>, number: u32) -> Result<(), AllocError>
    ensures kept { (k : ℕ) → slice_index links.new.items k ≡ slice_index links.old.items k }
    ensures longer { vec_len links.old ≤ vec_len links.new }
    ensures room { OnOk result (number < vec_len links.new) }
{
    let number = number as usize;
    if number >= links.len() {
        links.resize(number + 1, 0)?;
    }
    Ok(())
}

/// The key of a call.
fn key_of(call: ClientCall) -> u32
    ensures { result ≡ called_key call }
{
    match call {
        ClientCall::WriteTo(key, _) => key,
        ClientCall::ReadOf(key) => key,
        ClientCall::DeleteOf(key) => key,
    }
}

/// Whether an ending fits a call.
fn fits(call: ClientCall, ending: Ending) -> bool
    ensures { IsTrue result ↔ Fits call ending }
{
    match ending {
        Ending::Failed | Ending::Lost => true,
        Ending::Answered => !matches!(call, ClientCall::ReadOf(_)),
        Ending::Got(_) | Ending::GotNothing => matches!(call, ClientCall::ReadOf(_)),
    }
}
