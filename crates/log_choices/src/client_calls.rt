//! The calls of each client of a log.

ghost use Rattle.std.specs.Prelude.{◌≡◌, [], IfOk, map, replicate};
ghost use Rattle.log_choices.specs.Steps.ChosenCalls.{client_rows};

use log_events::{EventLog, LoggedCall};
use std::alloc::{AllocError, Global};

/// The calls of each client, in the order of their begins.
///
/// Fails for want of memory alone. O(n) for n calls and clients.
pub(crate) fn client_calls(
    alloc: Global,
    log: &EventLog,
) -> Result<Vec<Vec<LoggedCall>>, AllocError>
    ensures { IfOk result (λ rows. map (λ row. row.items) rows.items ≡ client_rows log.now) }
{
    let mut rows = no_calls(alloc, log.clients() as usize)?;
    for call in log.calls() {
        rows[call.client() as usize].push(*call)?;
    }
    Ok(rows)
}

/// No calls, for so many clients.
fn no_calls(alloc: Global, clients: usize) -> Result<Vec<Vec<LoggedCall>>, AllocError>
    ensures { IfOk result (λ rows. map (λ row. row.items) rows.items ≡ replicate clients []) }
{
    let mut rows = Vec::new(alloc);
    for _ in 0..clients {
        rows.push(Vec::new(alloc))?;
    }
    Ok(rows)
}
