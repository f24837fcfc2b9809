//! The sessions of the history of a log by a choice.

ghost use Rattle.std.specs.Prelude.{◌≡◌, ◌++◌, [], All, Contains, IfOk, OnOk, filter_map, map};
ghost use Rattle.std.specs.List.{range_with_len};
ghost use Rattle.log_events.specs.Events.{run_calls};
ghost use Rattle.log_events.specs.Histories.{clients};
ghost use Rattle.log_choices.specs.ChoiceTables.{choice_in};
ghost use Rattle.log_choices.specs.ChosenHistories.{client_session_by, fork_sessions_by, history_by, operation_by};

use crate::chosen_calls::ChosenCalls;
use judge_memory::LongEntry;
use log_events::LoggedCall;
use order_causal::Rows;
use std::alloc::{AllocError, Global};

/// The sessions of the history.
///
/// Fails for want of memory alone. O(n log n) for n calls and clients.
pub(crate) fn sessions_of(
    alloc: Global,
    calls: &ChosenCalls<'_>,
) -> Result<Rows<LongEntry>, AllocError>
    ensures { IfOk result (λ sessions. sessions ≡ (history_by calls.now.0 (choice_in calls.now.1)).1) }
{
    let mut sessions = client_sessions(alloc, calls)?;
    push_forks(calls, &mut sessions)?;
    Ok(sessions)
}

/// The sessions of the clients.
fn client_sessions(alloc: Global, calls: &ChosenCalls<'_>) -> Result<Rows<LongEntry>, AllocError>
    ensures { IfOk result (λ sessions. sessions
        ≡ map (client_session_by calls.now.0 (choice_in calls.now.1)) (range_with_len 0 (clients calls.now.0))) }
{
    let rows = calls.client_calls(alloc)?;
    let mut session = Vec::new(alloc);
    let mut sessions = Rows::new(alloc);
    for row in &rows {
        collect_operations(calls, row, &mut session)?;
        sessions.push(&session)?;
    }
    Ok(sessions)
}

/// Puts the operations of some calls into `session`, in place of what it has.
fn collect_operations(
    calls: &ChosenCalls<'_>,
    row: &[LoggedCall],
    session: &mut Vec<LongEntry>,
) -> Result<(), AllocError>
    requires { All (Contains (run_calls calls.now.0)) row.now }
    ensures { OnOk result (session.new.items
        ≡ filter_map (λ a. operation_by calls.now.0 (choice_in calls.now.1) a.place a.call a.ending) row.now) }
{
    session.clear();
    for call in row {
        if let Some(operation) = calls.operation(call) {
            session.push(operation)?;
        }
    }
    Ok(())
}

/// Puts the forks after the sessions.
fn push_forks(calls: &ChosenCalls<'_>, sessions: &mut Rows<LongEntry>) -> Result<(), AllocError>
    ensures { OnOk result (sessions.new ≡ sessions.old ++ fork_sessions_by calls.now.0 (choice_in calls.now.1)) }
{
    for call in calls.calls() {
        if let Some(fork) = calls.fork(call) {
            sessions.push(&fork)?;
        }
    }
    Ok(())
}
