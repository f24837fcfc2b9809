//! The calls of the operations in the history of a log by a choice.

ghost use Rattle.std.specs.Prelude.{◌≡◌, ◌++◌, [], All, Contains, IfOk, OnOk, filter, map};
ghost use Rattle.std.specs.List.{range_with_len};
ghost use Rattle.std.specs.Option.{is_some};
ghost use Rattle.log_events.specs.Events.{run_calls};
ghost use Rattle.log_events.specs.Histories.{clients};
ghost use Rattle.log_choices.specs.ChoiceTables.{choice_in};
ghost use Rattle.log_choices.specs.ChosenHistories.{operation_by};
ghost use Rattle.log_choices.specs.ChosenOrigins.{client_origins_by, fork_origins_by, origins_by};

use crate::chosen_calls::ChosenCalls;
use log_events::LoggedCall;
use order_causal::Rows;
use std::alloc::{AllocError, Global};

/// For each session of the history the calls of its operations.
///
/// Fails for want of memory alone. O(n log n) for n calls and clients.
pub(crate) fn origins_of(
    alloc: Global,
    calls: &ChosenCalls<'_>,
) -> Result<Rows<LoggedCall>, AllocError>
    ensures { IfOk result (λ origins. origins ≡ origins_by calls.now.0 (choice_in calls.now.1)) }
{
    let mut origins = client_origins(alloc, calls)?;
    push_forked(calls, &mut origins)?;
    Ok(origins)
}

/// The calls of the operations in the clients' sessions.
fn client_origins(alloc: Global, calls: &ChosenCalls<'_>) -> Result<Rows<LoggedCall>, AllocError>
    ensures { IfOk result (λ origins. origins
        ≡ map (client_origins_by calls.now.0 (choice_in calls.now.1)) (range_with_len 0 (clients calls.now.0))) }
{
    let rows = calls.client_calls(alloc)?;
    let mut kept = Vec::new(alloc);
    let mut origins = Rows::new(alloc);
    for row in &rows {
        collect_kept(calls, row, &mut kept)?;
        origins.push(&kept)?;
    }
    Ok(origins)
}

/// Puts the calls that have an operation into `kept`, in place of what it has.
fn collect_kept(
    calls: &ChosenCalls<'_>,
    row: &[LoggedCall],
    kept: &mut Vec<LoggedCall>,
) -> Result<(), AllocError>
    requires { All (Contains (run_calls calls.now.0)) row.now }
    ensures { OnOk result (kept.new.items
        ≡ filter (λ a. is_some (operation_by calls.now.0 (choice_in calls.now.1) a.place a.call a.ending)) row.now) }
{
    kept.clear();
    for call in row {
        if calls.operation(call).is_some() {
            kept.push(*call)?;
        }
    }
    Ok(())
}

/// Puts the calls of the forks after the others.
fn push_forked(calls: &ChosenCalls<'_>, origins: &mut Rows<LoggedCall>) -> Result<(), AllocError>
    ensures { OnOk result (origins.new ≡ origins.old ++ fork_origins_by calls.now.0 (choice_in calls.now.1)) }
{
    for call in calls.calls() {
        if calls.fork(call).is_some() {
            origins.push(&[*call, *call])?;
        }
    }
    Ok(())
}
