//! The calls of the operations in the history of a log.

ghost use Rattle.std.specs.Prelude.{◌≡◌, ◌++◌, [], All, Contains, IfOk, OnOk, filter, map};
ghost use Rattle.std.specs.List.{range_with_len};
ghost use Rattle.std.specs.Option.{is_some};
ghost use Rattle.log_events.specs.Events.{run_calls};
ghost use Rattle.log_events.specs.Histories.{clients, operation};
ghost use Rattle.log_events.specs.Origins.{client_origins, fork_origins, origins_of as origins_in};

use crate::chains::chains_of;
use crate::logged_call::LoggedCall;
use crate::outcomes::Outcomes;
use order_causal::Rows;
use std::alloc::{AllocError, Global};

/// For each session of the history the calls of its operations.
///
/// Fails for want of memory alone. O(n log n) for n calls and clients.
pub(crate) fn origins_of(
    alloc: Global,
    outcomes: &Outcomes<'_>,
) -> Result<Rows<LoggedCall>, AllocError>
    ensures { IfOk result (λ origins. origins ≡ origins_in outcomes.now) }
{
    let mut origins = of_clients(alloc, outcomes)?;
    push_of_forks(outcomes, &mut origins)?;
    Ok(origins)
}

/// The calls of the operations in the clients' sessions.
fn of_clients(alloc: Global, outcomes: &Outcomes<'_>) -> Result<Rows<LoggedCall>, AllocError>
    ensures { IfOk result (λ origins. origins ≡ map (client_origins outcomes.now) (range_with_len 0 (clients outcomes.now))) }
{
    let calls = outcomes.calls();
    let chains = chains_of(alloc, calls, outcomes.clients())?;
    let mut found = Vec::new(alloc);
    let mut standing = Vec::new(alloc);
    let mut origins = Rows::new(alloc);
    for client in 0..outcomes.clients() {
        chains.collect(calls, client, &mut found)?;
        collect_standing(outcomes, &found, &mut standing)?;
        origins.push(&standing)?;
    }
    Ok(origins)
}

/// Puts the calls that have an operation into `standing`, in place of what it has.
fn collect_standing(
    outcomes: &Outcomes<'_>,
    calls: &[LoggedCall],
    standing: &mut Vec<LoggedCall>,
) -> Result<(), AllocError>
    requires { All (Contains (run_calls outcomes.now)) calls.now }
    ensures { OnOk result (standing.new.items ≡ filter (λ a. is_some (operation outcomes.now a.place a.call a.ending)) calls.now) }
{
    standing.clear();
    for call in calls {
        if outcomes.operation(call).is_some() {
            standing.push(*call)?;
        }
    }
    Ok(())
}

/// Puts the calls of the forks after the others.
fn push_of_forks(outcomes: &Outcomes<'_>, origins: &mut Rows<LoggedCall>) -> Result<(), AllocError>
    ensures { OnOk result (origins.new ≡ origins.old ++ fork_origins outcomes.now) }
{
    for call in outcomes.calls() {
        if outcomes.fork(call).is_some() {
            origins.push(&[*call, *call])?;
        }
    }
    Ok(())
}
