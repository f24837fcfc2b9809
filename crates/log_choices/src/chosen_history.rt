//! The history of a log by a choice of what its null reads saw.

ghost use Rattle.std.specs.Prelude.{◌≡◌, List, [], IfOk, filter_map};
ghost use Rattle.model_objects.specs.Table.{IsRising};
ghost use Rattle.judge_memory.specs.LongHistories.{IsLongHistory};
ghost use Rattle.log_events.specs.declared.event.Event.{Event};
ghost use Rattle.log_events.specs.Histories.{history_of, start_entry};
ghost use Rattle.log_choices.specs.Choices.{Choice};
ghost use Rattle.log_choices.specs.ChoiceTables.{choice_in};
ghost use Rattle.log_choices.specs.ChosenHistories.{history_by as chosen_history};
ghost use Rattle.log_choices.specs.ChosenOrigins.{AreOriginsBy, origins_by as chosen_origins};

use crate::chosen_calls::ChosenCalls;
use crate::origins::origins_of;
use crate::seen::Seen;
use crate::sessions::sessions_of;
use judge_memory::LongHistory;
use log_events::{EventLog, LoggedCall};
use model_objects::Table;
use order_causal::Rows;
use std::alloc::{AllocError, Global};

/// The history of a log by a choice: the clients' sessions, each in the order of begins, and then the forks of lost writes and deletes.
///
/// The choice has the places of the begins of null reads, in order, each with what the read saw. A null read that it does not have is left
/// out, and entries at other places count for nothing. It need not be a choice of candidates.
///
/// Fails for want of memory, and where the history has more than `judge_memory::MAX_NUMBERS` operations or sessions. O(n log n) for n calls
/// and clients. Besides the history it takes some 60 bytes a call, or what [`EventLog::history`] takes where the choice has no place.
pub fn history_by(
    alloc: Global,
    log: &EventLog,
    choice: &Table<Seen>,
) -> Result<LongHistory, AllocError>
    requires rising { IsRising choice.now }
    ensures { IfOk result (λ h. h ≡ chosen_history log.now (choice_in choice.now)) }
{
    if choice.is_empty() {
        return log.history(alloc);
    }
    let start = start_of(alloc, log)?;
    let calls = ChosenCalls::of(alloc, log, choice)?;
    let sessions = sessions_of(alloc, &calls)?;
    LongHistory::of(start, sessions)
}

/// For each session of that history the calls of its operations, in order. Both operations of a fork are of one call.
///
/// Fails for want of memory alone. O(n log n) for n calls and clients.
pub fn origins_by(
    alloc: Global,
    log: &EventLog,
    choice: &Table<Seen>,
) -> Result<Rows<LoggedCall>, AllocError>
    requires rising { IsRising choice.now }
    ensures exact { IfOk result (λ calls. calls ≡ chosen_origins log.now (choice_in choice.now)) }
    ensures each { IfOk result (AreOriginsBy log.now (choice_in choice.now)) }
{
    let calls = ChosenCalls::of(alloc, log, choice)?;
    origins_of(alloc, &calls)
}

/// The history by the choice that has no place is the history of the log. The function does nothing: what it ensures is the law.
pub fn no_choice_leaves_null_reads_out()
    ensures { (es : List Event) → chosen_history es (choice_in []) ≡ history_of es }
{}

/// What the keys hold before the first call.
fn start_of(alloc: Global, log: &EventLog) -> Result<Table<u64>, AllocError>
    ensures start { IfOk result (λ start. start ≡ filter_map start_entry log.now) }
    ensures long { IfOk result (λ start. (f : Choice) → IsLongHistory (start, (chosen_history log.now f).1)) }
{
    // What these say of the log makes its history by each choice a long history.
    log.events_are_log();
    let _few = log.events();
    let _small = log.calls();
    log.history_is_long();
    log.copied_starts(alloc)
}
