//! What is forced of the null reads of a log.

ghost use Rattle.std.specs.Prelude.{All, IfOk, IfSome};
ghost use Rattle.model_objects.specs.Table.{IsRising};
ghost use Rattle.log_choices.specs.Choices.{IsChoiceWherePossible};
ghost use Rattle.log_choices.specs.ChoiceTables.{choice_in};
ghost use Rattle.log_choices.specs.Exclusions.{IsLackingRead};
ghost use Rattle.log_choices.specs.Forced.{IsForcedChoice, LacksCandidates};
ghost use Rattle.log_choices.specs.ForcedSteps.{AreForcedReads, AreLacking};

use crate::Seen;
use crate::exclusions::LackingRead;
use crate::forced_lacking::Lacking;
use crate::forced_pass::{Found, pass};
use crate::forced_plan::Plan;
use crate::timed::Timed;
use log_events::{ClientCall, EventLog};
use model_objects::Table;
use std::alloc::{AllocError, Global};

/// How often the calls of a short log are gone over at most, and those of a long one.
const MAX_PASSES: usize = 8;

const MIN_PASSES: usize = 2;

/// How many calls are gone over, with all passes, of a log that is not short.
const MAX_STEPS: usize = 2_000_000;

/// The most counts that are kept of what comes before writes, and before the clients' next calls.
const MAX_COUNTS: u64 = 268_435_456;

/// What is forced of the null reads of a log.
#[derive(Debug, Drop)]
pub struct ForcedReads {
    /// What those saw that are left with one candidate, or with none, by the places of their begins.
    pub seen: Table<Seen>,
    /// The places of the begins of those that are left with none.
    pub lacking: Vec<u32>,
    /// One of these, if there is one, and why.
    pub first_lacking: Option<LackingRead>,
}

/// What null reads of a log saw that are left with one candidate, and which are left with none. With `in_time` the events have to stand in
/// the order of time: then no delete is a candidate that begins after the read had ended.
///
/// A candidate is taken out where the read comes before it, or another write or delete of the key that comes before the read comes after
/// it. A read that is left with no candidate has one all the same, the first delete of its key or the start, since each but that one is
/// out: then a log of distinct values meets no criterion ([`lack_of_candidates_is_a_no`](crate::laws::lack_of_candidates_is_a_no)).
///
/// Not all that is forced is found: the calls are gone over at most eight times, and at most twice where they are more than 666,666; a
/// read that is left with one candidate by one pass is not looked at again by the next; a lost write or delete counts as one that replaces others
/// only until more is known of its client, and nothing is found where the writes and deletes, or the clients, times the clients are more
/// than 2^28, and of a read that more than 1,024 deletes of its key are candidates of.
///
/// Fails for want of memory alone. O(n k) for n calls and k clients, and for each null read O(k log n + d (k + log n)) for d deletes of
/// its key. It takes 4 k bytes for each write, delete and client. A log in which no read got nothing, or without deletes, takes O(n) and no memory.
pub fn forced_reads(alloc: Global, log: &EventLog, in_time: bool) -> Result<ForcedReads, AllocError>
    ensures rising { IfOk result (λ forced. IsRising forced.seen) }
    ensures forced { IfOk result (λ forced. IsForcedChoice in_time log.now (choice_in forced.seen)) }
    ensures possible { IfOk result (λ forced. IsChoiceWherePossible in_time log.now (choice_in forced.seen)) }
    ensures lacking { IfOk result (λ forced. All (LacksCandidates in_time log.now) forced.lacking.items) }
    ensures first { IfOk result (λ forced. IfSome forced.first_lacking (IsLackingRead in_time log.now)) }
{
    let found = found_by_passes(alloc, log, in_time)?;
    let Found { seen, lacking, .. } = found;
    let Lacking { places, first } = lacking;
    Ok(ForcedReads {
        seen,
        lacking: places,
        first_lacking: first,
    })
}

/// What passes over the calls find.
///
/// Fails for want of memory alone.
fn found_by_passes(alloc: Global, log: &EventLog, in_time: bool) -> Result<Found, AllocError>
    ensures seen { IfOk result (λ found. AreForcedReads in_time log.now found.seen) }
    ensures lacking { IfOk result (λ found. AreLacking in_time log.now found.lacking) }
{
    let mut found = Found::nothing(alloc);
    if !is_within_limits(log) {
        return Ok(found);
    }
    let timed = Timed { log, in_time };
    let mut plan = Plan::of(alloc, log)?;
    for _ in 0..most_passes(log) {
        if !found.has_grown {
            break;
        }
        pass(alloc, &timed, &mut plan, &mut found)?;
    }
    Ok(found)
}

/// How often the calls of a log are gone over at most.
fn most_passes(log: &EventLog) -> usize {
    let calls = log.calls().len().max(1);
    (MAX_STEPS / calls).clamp(MIN_PASSES, MAX_PASSES)
}

/// Whether some read got nothing and some delete did not fail, and the counts of what comes before the writes and the clients' calls are not
/// too many.
fn is_within_limits(log: &EventLog) -> bool {
    let clients = u64::from(log.clients());
    let writes = log
        .calls()
        .iter()
        .filter(|call| is_write(call.call()))
        .count();
    log.calls().iter().any(|call| call.missed_key().is_some())
        && log.calls().iter().any(|call| call.deleted_key().is_some())
        && (writes as u64).max(clients).saturating_mul(clients) <= MAX_COUNTS
}

/// Whether a call writes or deletes.
fn is_write(call: ClientCall) -> bool {
    !matches!(call, ClientCall::ReadOf(_))
}
