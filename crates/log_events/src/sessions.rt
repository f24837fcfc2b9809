//! The sessions of the history of a log.

ghost use Rattle.std.specs.Prelude.{◌≡◌, ◌++◌, [], All, Contains, IfOk, OnOk, map};
ghost use Rattle.std.specs.List.{range_with_len};
ghost use Rattle.log_events.specs.Events.{run_calls};
ghost use Rattle.log_events.specs.Histories.{client_session, clients, fork_sessions, history_of, operations};

use crate::chains::chains_of;
use crate::logged_call::LoggedCall;
use crate::outcomes::Outcomes;
use judge_memory::LongEntry;
use order_causal::Rows;
use std::alloc::{AllocError, Global};

/// The sessions of the history.
///
/// Fails for want of memory alone. O(n log n) for n calls and clients.
pub(crate) fn sessions_of(
    alloc: Global,
    outcomes: &Outcomes<'_>,
) -> Result<Rows<LongEntry>, AllocError>
    ensures { IfOk result (λ sessions. sessions ≡ (history_of outcomes.now).1) }
{
    let mut sessions = client_sessions(alloc, outcomes)?;
    push_forks(outcomes, &mut sessions)?;
    Ok(sessions)
}

/// The sessions of the clients.
fn client_sessions(alloc: Global, outcomes: &Outcomes<'_>) -> Result<Rows<LongEntry>, AllocError>
    ensures { IfOk result (λ sessions. sessions ≡ map (client_session outcomes.now) (range_with_len 0 (clients outcomes.now))) }
{
    let calls = outcomes.calls();
    let chains = chains_of(alloc, calls, outcomes.clients())?;
    let mut found = Vec::new(alloc);
    let mut session = Vec::new(alloc);
    let mut sessions = Rows::new(alloc);
    for client in 0..outcomes.clients() {
        chains.collect(calls, client, &mut found)?;
        collect_operations(outcomes, &found, &mut session)?;
        sessions.push(&session)?;
    }
    Ok(sessions)
}

/// Puts the operations of some calls into `session`, in place of what it has.
fn collect_operations(
    outcomes: &Outcomes<'_>,
    calls: &[LoggedCall],
    session: &mut Vec<LongEntry>,
) -> Result<(), AllocError>
    requires { All (Contains (run_calls outcomes.now)) calls.now }
    ensures { OnOk result (session.new.items ≡ operations outcomes.now calls.now) }
{
    session.clear();
    for call in calls {
        if let Some(operation) = outcomes.operation(call) {
            session.push(operation)?;
        }
    }
    Ok(())
}

/// Puts the forks after the sessions.
fn push_forks(outcomes: &Outcomes<'_>, sessions: &mut Rows<LongEntry>) -> Result<(), AllocError>
    ensures { OnOk result (sessions.new ≡ sessions.old ++ fork_sessions outcomes.now) }
{
    for call in outcomes.calls() {
        if let Some(fork) = outcomes.fork(call) {
            sessions.push(&fork)?;
        }
    }
    Ok(())
}
