//! Whether what is said of the null reads of a log is a whole choice.

ghost use Rattle.std.specs.Prelude.{◌≡◌, ◌≢◌, ℕ, Contains, IfNone, IfOk, IfSome, IsSortedByKey, IsTrue, Some, false, slice_get};
ghost use Rattle.std.specs.Ordering.{nat_cmp};
ghost use Rattle.model_objects.specs.Table.{IsRising};
ghost use Rattle.log_events.specs.Events.{Call, run_calls};
ghost use Rattle.log_choices.specs.Choices.{IsCandidate, IsChoice, IsNullRead, IsWhole};
ghost use Rattle.log_choices.specs.ChoiceTables.{choice_in, seen_of};
ghost use Rattle.log_choices.specs.Checked.{AreExplained, IsExplained};
ghost use Rattle.log_choices.specs.ForcedSteps.{AreDeletes, GetsNothing};
ghost use Rattle.log_choices.specs.declared.forced_kept.Delete.{Delete as Deleted};

use crate::Seen;
use crate::forced_kept::{Delete, kept_deletes};
use crate::forced_looks::{NullRead, is_possible};
use crate::forced_plan::is_started;
use crate::timed::Timed;
use log_events::EventLog;
use model_objects::Table;
use std::alloc::{AllocError, Global};

/// Whether a table has each null read of a log, in the order of their begins, with a candidate.
///
/// Fails for want of memory alone. O(n + m log n) for n calls and m reads that got nothing, and O(d log d) for d deletes.
pub(crate) fn is_whole_choice(
    alloc: Global,
    log: &EventLog,
    in_time: bool,
    table: &Table<Seen>,
) -> Result<bool, AllocError>
    ensures rising { IfOk result (λ is_choice. IsTrue is_choice → IsRising table.now) }
    ensures choice { IfOk result (λ is_choice. IsTrue is_choice → IsChoice in_time log.now (choice_in table.now)) }
    ensures whole { IfOk result (λ is_choice. IsTrue is_choice → IsWhole log.now (choice_in table.now)) }
{
    if !is_rising(table.entries()) {
        return Ok(false);
    }
    let timed = Timed { log, in_time };
    let deletes = kept_deletes(alloc, log)?;
    Ok(explains_all(&timed, &deletes, table))
}

/// Whether the places of some entries rise. O(n) for n entries.
fn is_rising(entries: &[(u32, Seen)]) -> bool
    ensures { IsTrue result → IsRising entries.now }
{
    let mut least = 0u64;
    for entry in entries {
        let place = u64::from(entry.0);
        if place < least {
            return false;
        }
        least = place + 1;
    }
    true
}

/// Whether a choice has each null read with a candidate. O(n + m log n) for n calls and m reads that got nothing.
fn explains_all(timed: &Timed<'_>, deletes: &[Delete], table: &Table<Seen>) -> bool
    requires rising { IsRising table.now }
    requires deletes { AreDeletes timed.now.log.now deletes.now }
    ensures { IsTrue result → AreExplained timed.now.in_time timed.now.log.now (choice_in table.now) }
{
    for number in 0..timed.log.calls().len() {
        if !explains(timed, deletes, table, number as u32) {
            return false;
        }
    }
    true
}

/// Whether a call, by its number, is no null read, or a choice has it with a candidate. O(log n) for n calls.
fn explains(timed: &Timed<'_>, deletes: &[Delete], table: &Table<Seen>, number: u32) -> bool
    requires rising { IsRising table.now }
    requires deletes { AreDeletes timed.now.log.now deletes.now }
    ensures { IsTrue result → (a : Call) → slice_get (run_calls timed.now.log.now) number ≡ Some a
        → IsExplained timed.now.in_time timed.now.log.now (choice_in table.now) a.place }
{
    let Some(read) = null_read(timed.log, number) else {
        return true;
    };
    if has_key(deletes, read.key) {
        match table.get(read.place) {
            Some(seen) => is_candidate(timed, deletes, read, *seen),
            None => false,
        }
    } else {
        true
    }
}

/// A call, by its number, as a read that got nothing, if it is one.
fn null_read(log: &EventLog, number: u32) -> Option<NullRead>
    ensures none { IfNone result ((a : Call) (client x j : ℕ) → slice_get (run_calls log.now) number ≡ Some a
        → ¬ IsNullRead log.now client x a.place j) }
    ensures some { IfSome result (λ read. GetsNothing log.now read
        × ((a : Call) → slice_get (run_calls log.now) number ≡ Some a → read.place ≡ a.place)) }
{
    let call = log.calls().get(number as usize)?;
    let key = call.missed_key()?;
    let end = log.ended_at(number)?;
    Some(NullRead {
        client: call.client(),
        place: call.place(),
        end,
        key,
    })
}

/// Whether some deletes, by key, have one of a key. O(log n) for n deletes.
fn has_key(deletes: &[Delete], key: u32) -> bool
    requires { IsSortedByKey (λ d. d.key) nat_cmp deletes.now }
    ensures { result ≡ false → (d : Deleted) → Contains deletes.now d → d.key ≢ key }
{
    let from = deletes.partition_point(|delete| delete.key < key);
    let to = deletes.partition_point(|delete| delete.key <= key);
    from < to
}

/// Whether a read that got nothing may have seen this. O(log n) for n deletes and starts.
fn is_candidate(timed: &Timed<'_>, deletes: &[Delete], read: NullRead, seen: Seen) -> bool
    requires deletes { AreDeletes timed.now.log.now deletes.now }
    requires read { GetsNothing timed.now.log.now read }
    ensures { IsTrue result → IsCandidate timed.now.in_time timed.now.log.now read.key read.end (seen_of seen) }
{
    match seen {
        Seen::Start => !is_started(timed.log, read.key),
        Seen::Delete(place) => {
            let delete = Delete {
                key: read.key,
                place,
            };
            is_possible(timed, delete, read) && has_delete(deletes, delete)
        }
    }
}

/// Whether some deletes, by key, have this one. O(log n) for n deletes.
fn has_delete(deletes: &[Delete], delete: Delete) -> bool
    ensures { IsTrue result → (d : Deleted) × Contains deletes.now d × (d.key ≡ delete.key) × (d.place ≡ delete.place) }
{
    let wanted = (delete.key, delete.place);
    let at = deletes.partition_point(|other| (other.key, other.place) < wanted);
    match deletes.get(at) {
        Some(other) => other.key == delete.key && other.place == delete.place,
        None => false,
    }
}
