//! A pass over the calls of a log that finds what is forced.

ghost use Rattle.std.specs.Prelude.{◌≡◌, ◌↔◌, ◌⊎◌, ◌<◌, ◌≤◌, ◌+◌, ◌*◌, [], ℕ, All, Bool, Contains, IfOk, IfSome, IsTrue, List, OnOk, Some};
ghost use Rattle.std.specs.Prelude.{slice_get, vec_len};
ghost use Rattle.log_events.specs.declared.event.ClientCall.TheVariants.{ReadOf};
ghost use Rattle.log_events.specs.declared.event.Ending.TheVariants.{Got, GotNothing, Failed, Lost};
ghost use Rattle.log_events.specs.Events.{run_calls};
ghost use Rattle.log_events.specs.declared.event.Event.{Event as Happened};
ghost use Rattle.log_choices.specs.ChoiceTables.{seen_of};
ghost use Rattle.log_choices.specs.ForcedSteps.{AreForcedReads, AreFoundBelow, AreLacking, ArePasts};
ghost use Rattle.log_choices.specs.ForcedSteps.{GetsNothing, IsAnswered, IsLeftWith, IsLook, IsPast, IsPastFrom, IsPlan};

use crate::Seen;
use crate::forced_kept::Kept;
use crate::forced_lacking::Lacking;
use crate::forced_looks::{Look, NullRead};
use crate::forced_pasts::{follow, raise};
use crate::forced_plan::Plan;
use crate::timed::Timed;
use log_events::{ClientCall, Ending, EventLog, LoggedCall};
use model_objects::Table;
use std::alloc::{AllocError, Global};
use std::mem;

/// What passes have found.
#[derive(Drop)]
pub(crate) struct Found {
    /// What null reads saw that are left with at most one candidate, by the places of their begins.
    pub(crate) seen: Table<Seen>,
    /// Those that are left with none.
    pub(crate) lacking: Lacking,
    /// Whether more is known than before of what comes before a write, as before the first pass.
    pub(crate) has_grown: bool,
}

impl Found {
    /// Nothing, and no pass was made.
    pub(crate) fn nothing(alloc: Global) -> Found
        ensures seen { result.seen ≡ [] }
        ensures lacking { (in_time : Bool) (es : List Happened) → AreLacking in_time es result.lacking }
    {
        Found {
            seen: Table::new(alloc),
            lacking: Lacking::none(alloc),
            has_grown: true,
        }
    }
}

/// One pass over the calls, in the order of their begins, with what the earlier ones have found. It puts into the plan what it comes to
/// know of what comes before the writes.
///
/// Fails for want of memory alone. O(n k) for n calls and k clients, and for each null read what [`Plan::look`] takes.
pub(crate) fn pass(
    alloc: Global,
    timed: &Timed<'_>,
    plan: &mut Plan,
    found: &mut Found,
) -> Result<(), AllocError>
    requires plan { IsPlan timed.now.in_time timed.now.log.now plan.old }
    requires seen { AreForcedReads timed.now.in_time timed.now.log.now found.old.seen }
    requires lacking { AreLacking timed.now.in_time timed.now.log.now found.old.lacking }
    ensures plan { OnOk result (IsPlan timed.now.in_time timed.now.log.now plan.new) }
    ensures seen { OnOk result (AreForcedReads timed.now.in_time timed.now.log.now found.new.seen) }
    ensures lacking { OnOk result (AreLacking timed.now.in_time timed.now.log.now found.new.lacking) }
{
    let mut pasts = nothing_known(alloc, timed)?;
    let earlier = mem::replace(&mut found.seen, Table::new(alloc));
    found.has_grown = false;
    for call in timed.log.calls() {
        let client = call.client() as usize;
        if client < pasts.len() {
            advance(
                alloc,
                timed,
                plan,
                call,
                &mut pasts[client],
                &earlier,
                found,
            )?;
        }
    }
    Ok(())
}

/// For each client that nothing is known to come before its first call.
///
/// Fails for want of memory alone. O(k^2) for k clients.
fn nothing_known(alloc: Global, timed: &Timed<'_>) -> Result<Vec<Vec<u32>>, AllocError>
    ensures { IfOk result (λ pasts. (b : ℕ) → ArePasts timed.now.in_time timed.now.log.now b pasts.items) }
{
    let clients = timed.log.clients() as usize;
    let mut pasts = Vec::new(alloc);
    for _ in 0..clients {
        pasts.push(vec![in alloc; 0; clients]?)?;
    }
    Ok(pasts)
}

/// Goes on by a call, where `past` is what comes before the calls of its client from here on.
///
/// Fails for want of memory alone.
fn advance(
    alloc: Global,
    timed: &Timed<'_>,
    plan: &mut Plan,
    call: &LoggedCall,
    past: &mut [u32],
    earlier: &Table<Seen>,
    found: &mut Found,
) -> Result<(), AllocError>
    requires plan { IsPlan timed.now.in_time timed.now.log.now plan.old }
    requires call { Contains (run_calls timed.now.log.now) call.now }
    requires past { IsPastFrom timed.now.in_time timed.now.log.now call.now.client call.now.place past.old }
    requires earlier { AreForcedReads timed.now.in_time timed.now.log.now earlier.now }
    requires found { AreFoundBelow timed.now.in_time timed.now.log.now call.now.place found.old.seen }
    requires lacking { AreLacking timed.now.in_time timed.now.log.now found.old.lacking }
    ensures plan { OnOk result (IsPlan timed.now.in_time timed.now.log.now plan.new) }
    ensures past { OnOk result (IsPastFrom timed.now.in_time timed.now.log.now call.now.client (call.now.place + 1) past.new) }
    ensures found { OnOk result (AreFoundBelow timed.now.in_time timed.now.log.now (call.now.place + 1) found.new.seen) }
    ensures lacking { OnOk result (AreLacking timed.now.in_time timed.now.log.now found.new.lacking) }
{
    match call.call() {
        ClientCall::ReadOf(_) => look_back(alloc, timed, plan, call, past, earlier, found)?,
        _ => keep(timed, plan, call, past, found)?,
    }
    go_past(timed, call, past);
    Ok(())
}

/// Adds a call to what comes before the later calls of its client, unless it failed or was lost.
fn go_past(timed: &Timed<'_>, call: &LoggedCall, past: &mut [u32])
    requires call { Contains (run_calls timed.now.log.now) call.now }
    requires here { IsPast timed.now.in_time timed.now.log.now past.old call.now.place }
    requires later { IsPastFrom timed.now.in_time timed.now.log.now call.now.client call.now.place past.old ⊎ IsAnswered call.now.ending }
    ensures { IsPastFrom timed.now.in_time timed.now.log.now call.now.client (call.now.place + 1) past.new }
{
    // It opens the log, so that its calls are known to be small.
    let _calls = timed.log.calls();
    if !is_lost_or_failed(call) {
        raise(past, call.client(), call.place());
    }
}

/// Whether a call failed or was lost.
fn is_lost_or_failed(call: &LoggedCall) -> bool
    ensures { IsTrue result ↔ (call.now.ending ≡ Some Lost ⊎ call.now.ending ≡ Some Failed) }
{
    matches!(call.ending(), Some(Ending::Lost | Ending::Failed))
}

/// Adds to what comes before a read what it saw, where that is known or found.
///
/// Fails for want of memory alone.
fn look_back(
    alloc: Global,
    timed: &Timed<'_>,
    plan: &Plan,
    call: &LoggedCall,
    past: &mut [u32],
    earlier: &Table<Seen>,
    found: &mut Found,
) -> Result<(), AllocError>
    requires plan { IsPlan timed.now.in_time timed.now.log.now plan.now }
    requires call { Contains (run_calls timed.now.log.now) call.now }
    requires past { IsPast timed.now.in_time timed.now.log.now past.old call.now.place }
    requires earlier { AreForcedReads timed.now.in_time timed.now.log.now earlier.now }
    requires found { AreFoundBelow timed.now.in_time timed.now.log.now call.now.place found.old.seen }
    requires lacking { AreLacking timed.now.in_time timed.now.log.now found.old.lacking }
    ensures past { OnOk result (IsPast timed.now.in_time timed.now.log.now past.new call.now.place) }
    ensures unread { OnOk result (past.new ≡ past.old ⊎ IsAnswered call.now.ending) }
    ensures found { OnOk result (AreFoundBelow timed.now.in_time timed.now.log.now (call.now.place + 1) found.new.seen) }
    ensures lacking { OnOk result (AreLacking timed.now.in_time timed.now.log.now found.new.lacking) }
{
    // It opens the log, so that its calls are known to be small.
    let _calls = timed.log.calls();
    match (call.call(), call.ending()) {
        (ClientCall::ReadOf(key), Some(Ending::Got(value))) => {
            follow_source(timed, plan, call, key, value, past);
        }
        (ClientCall::ReadOf(key), Some(Ending::GotNothing)) => {
            if let Some(read) = null_read(timed.log, call, key) {
                let look = seen_by(alloc, timed, plan, read, past, earlier)?;
                put_down(alloc, timed, plan, read, look, past, found)?;
            }
        }
        _ => {}
    }
    Ok(())
}

/// A read that got nothing, with the place of its end. O(log n) for n calls.
fn null_read(log: &EventLog, call: &LoggedCall, key: u32) -> Option<NullRead>
    requires call { Contains (run_calls log.now) call.now }
    requires read { call.now.call ≡ ReadOf key }
    requires nothing { call.now.ending ≡ Some GotNothing }
    ensures { IfSome result (λ read. GetsNothing log.now read × (read.place ≡ call.now.place)) }
{
    let calls = log.calls();
    let number = calls.partition_point(|other| other.place() < call.place());
    if calls.get(number)?.place() != call.place() {
        return None;
    }
    let end = log.ended_at(number as u32)?;
    Some(NullRead {
        client: call.client(),
        place: call.place(),
        end,
        key,
    })
}

/// Adds to what comes before a read the write whose value it got.
fn follow_source(
    timed: &Timed<'_>,
    plan: &Plan,
    call: &LoggedCall,
    key: u32,
    value: u32,
    past: &mut [u32],
)
    requires plan { IsPlan timed.now.in_time timed.now.log.now plan.now }
    requires call { Contains (run_calls timed.now.log.now) call.now }
    requires read { call.now.call ≡ ReadOf key }
    requires got { call.now.ending ≡ Some (Got value) }
    requires past { IsPast timed.now.in_time timed.now.log.now past.old call.now.place }
    ensures { IsPast timed.now.in_time timed.now.log.now past.new call.now.place }
{
    if let Some(write) = plan.write_of(key, value) {
        follow(past, write);
    }
}

/// What a read that got nothing must have seen: what an earlier pass has found, or what is found now.
///
/// Fails for want of memory alone.
fn seen_by(
    alloc: Global,
    timed: &Timed<'_>,
    plan: &Plan,
    read: NullRead,
    past: &[u32],
    earlier: &Table<Seen>,
) -> Result<Look, AllocError>
    requires plan { IsPlan timed.now.in_time timed.now.log.now plan.now }
    requires read { GetsNothing timed.now.log.now read }
    requires past { IsPast timed.now.in_time timed.now.log.now past.now read.place }
    requires earlier { AreForcedReads timed.now.in_time timed.now.log.now earlier.now }
    ensures { IfOk result (IsLook timed.now.in_time timed.now.log.now read.place) }
{
    match earlier.get(read.place) {
        Some(seen) => Ok(Look::Saw(*seen)),
        None => plan.look(alloc, timed, read, past),
    }
}

/// Puts down what a read that got nothing must have seen, and adds it to what comes before the read.
///
/// Fails for want of memory alone.
fn put_down(
    alloc: Global,
    timed: &Timed<'_>,
    plan: &Plan,
    read: NullRead,
    look: Look,
    past: &mut [u32],
    found: &mut Found,
) -> Result<(), AllocError>
    requires plan { IsPlan timed.now.in_time timed.now.log.now plan.now }
    requires read { GetsNothing timed.now.log.now read }
    requires look { IsLook timed.now.in_time timed.now.log.now read.place look }
    requires past { IsPast timed.now.in_time timed.now.log.now past.old read.place }
    requires found { AreFoundBelow timed.now.in_time timed.now.log.now read.place found.old.seen }
    requires lacking { AreLacking timed.now.in_time timed.now.log.now found.old.lacking }
    ensures past { OnOk result (IsPast timed.now.in_time timed.now.log.now past.new read.place) }
    ensures found { OnOk result (AreFoundBelow timed.now.in_time timed.now.log.now (read.place + 1) found.new.seen) }
    ensures lacking { OnOk result (AreLacking timed.now.in_time timed.now.log.now found.new.lacking) }
{
    match look {
        Look::Open => Ok(()),
        Look::Saw(seen) => put_seen(timed, plan, read, seen, past, found),
        Look::Lacks(seen) => {
            found.lacking.add(alloc, timed, plan, read, past)?;
            put_seen(timed, plan, read, seen, past, found)
        }
    }
}

/// The same where that is known.
///
/// Fails for want of memory alone.
fn put_seen(
    timed: &Timed<'_>,
    plan: &Plan,
    read: NullRead,
    seen: Seen,
    past: &mut [u32],
    found: &mut Found,
) -> Result<(), AllocError>
    requires plan { IsPlan timed.now.in_time timed.now.log.now plan.now }
    requires seen { IsLeftWith timed.now.in_time timed.now.log.now read.place (seen_of seen) }
    requires past { IsPast timed.now.in_time timed.now.log.now past.old read.place }
    requires found { AreFoundBelow timed.now.in_time timed.now.log.now read.place found.old.seen }
    ensures past { OnOk result (IsPast timed.now.in_time timed.now.log.now past.new read.place) }
    ensures found { OnOk result (AreFoundBelow timed.now.in_time timed.now.log.now (read.place + 1) found.new.seen) }
    ensures lacking { found.new.lacking ≡ found.old.lacking }
{
    found.seen.push(read.place, seen)?;
    if let Seen::Delete(place) = seen
        && let Some(write) = plan.write_at(place)
    {
        follow(past, write);
    }
    Ok(())
}

/// Puts into the plan what comes before a write or delete that did not fail.
///
/// Fails for want of memory alone. O(k + log n) for n writes and k clients.
fn keep(
    timed: &Timed<'_>,
    plan: &mut Plan,
    call: &LoggedCall,
    past: &[u32],
    found: &mut Found,
) -> Result<(), AllocError>
    requires plan { IsPlan timed.now.in_time timed.now.log.now plan.old }
    requires past { IsPast timed.now.in_time timed.now.log.now past.now call.now.place }
    ensures plan { OnOk result (IsPlan timed.now.in_time timed.now.log.now plan.new) }
    ensures seen { found.new.seen ≡ found.old.seen }
    ensures lacking { found.new.lacking ≡ found.old.lacking }
{
    let number = plan.number_at(call.place());
    if number < plan.writes.len()
        && plan.writes[number].place == call.place()
        && plan.writes[number].past.as_slice() != past
    {
        renew(&mut plan.writes[number], past)?;
        found.has_grown = true;
    }
    Ok(())
}

/// Puts what comes before a write or delete in place of what it has.
///
/// Fails for want of memory alone. O(k) for k clients.
fn renew(write: &mut Kept, past: &[u32]) -> Result<(), AllocError>
    ensures { OnOk result (write.new ≡ record write.old { past = write.new.past } × (write.new.past.items ≡ past.now)) }
{
    write.past.clear();
    write.past.extend_from_slice(past)?;
    Ok(())
}
