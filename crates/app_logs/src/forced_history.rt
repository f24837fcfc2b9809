//! The history by which a log is judged: by what is forced of its null reads.

ghost use Rattle.std.specs.Prelude.{◌≡◌, IfOk, IfSome};
ghost use Rattle.model_objects.specs.Table.{IsRising};
ghost use Rattle.log_choices.specs.ChoiceTables.{choice_in};
ghost use Rattle.log_choices.specs.ChosenHistories.{history_by as chosen_history};
ghost use Rattle.log_choices.specs.Exclusions.{IsLackingRead};
ghost use Rattle.app_logs.specs.Reports.{IsForcedHistory, IsForcedIn};

use judge_memory::LongHistory;
use log_choices::{ForcedReads, Seen, forced_reads, history_by, no_choice_leaves_null_reads_out};
use log_events::EventLog;
use model_objects::Table;
use std::alloc::{AllocError, Global};

/// What is forced of the null reads of a log, in the order of time or not.
///
/// Fails for want of memory alone, at the cost of [`forced_reads`].
pub(crate) fn forced_of(
    alloc: Global,
    log: &EventLog,
    in_time: bool,
) -> Result<ForcedReads, AllocError>
    ensures forced { IfOk result (λ found. IsForcedIn in_time log.now found.seen) }
    ensures lacking { IfOk result (λ found. IfSome found.first_lacking (IsLackingRead in_time log.now)) }
{
    let found = forced_reads(alloc, log, in_time)?;
    Ok(found)
}

/// What the null reads of a log saw, as far as it is forced, in the order of time or not: nothing where no read found nothing.
///
/// Fails for want of memory alone, at the cost of [`forced_reads`].
pub(crate) fn forced_in(
    alloc: Global,
    log: &EventLog,
    in_time: bool,
) -> Result<Table<Seen>, AllocError>
    ensures { IfOk result (IsForcedIn in_time log.now) }
{
    let found = forced_of(alloc, log, in_time)?;
    Ok(found.seen)
}

/// The history of a log by what null reads saw, and without those of which that is not known.
///
/// Fails for want of memory alone. O(n log n) for n calls and clients.
pub(crate) fn history_as_seen(
    alloc: Global,
    log: &EventLog,
    saw: &Table<Seen>,
) -> Result<LongHistory, AllocError>
    requires rising { IsRising saw.now }
    ensures { IfOk result (λ h. h ≡ chosen_history log.now (choice_in saw.now)) }
{
    if saw.is_empty() {
        no_choice_leaves_null_reads_out();
        return log.history(alloc);
    }
    history_by(alloc, log, saw)
}

/// The history of a log by what is forced of its null reads, in the order of time or not.
///
/// Fails for want of memory alone, at the cost of [`forced_reads`] and O(n log n) for n calls and clients.
pub(crate) fn forced_history(
    alloc: Global,
    log: &EventLog,
    in_time: bool,
) -> Result<LongHistory, AllocError>
    ensures { IfOk result (IsForcedHistory in_time log.now) }
{
    let saw = forced_in(alloc, log, in_time)?;
    let history = history_as_seen(alloc, log, &saw)?;
    Ok(history)
}
