//! What holds of logs, and of the histories that they represent. The functions do nothing: what they ensure is the law.

ghost use Rattle.std.specs.Prelude.{◌≡◌, ◌≢◌, ◌↔◌, ◌≤◌, ◌^◌, ℕ, List, length, take, None};
ghost use Rattle.model_history.specs.History.{session};
ghost use Rattle.order_memory.specs.Memory.{IsDifferentiated, MemoryHistory, memory_answer};
ghost use Rattle.order_memory.specs.SourceOrder.{LacksSource};
ghost use Rattle.cert_check.specs.Criteria.{Meets};
ghost use Rattle.log_events.specs.Events.{Call, IsAllowed};
ghost use Rattle.log_events.specs.Histories.{history_of, Operation, read, write};
ghost use Rattle.log_events.specs.Cuts.{BeginsSession, EndsWell, FindsNothingInOrder, HasPlainEnds, HasStartsBefore, IsClosedCut};
ghost use Rattle.log_events.specs.Cuts.{IsCutSession, ReturnsWhatWasBegun};
ghost use Rattle.log_events.specs.Insertions.{IsForked, IsFresh, IsInserted, IsUnread};
ghost use Rattle.log_events.specs.Shapes.{HasSmallKeys, IsShaped, NamesSmallKeys};
ghost use Rattle.log_events.specs.Values.{HasDistinctValues};

use crate::event::Event;
use cert_check::Criterion;

/// The first events of a log are a log, and where each read of the log returns what was begun before, so does each read of theirs.
pub fn cuts_are_logs()
    ensures allowed { (es : List Event) (n : ℕ) → IsAllowed es → IsAllowed (take n es) }
    ensures begun { (es : List Event) (n : ℕ) → ReturnsWhatWasBegun es → ReturnsWhatWasBegun (take n es) }
{}

/// The start of the history of a log is a table, each known return fits its call, and in each session the known returns come first.
pub fn histories_are_shaped()
    ensures { (es : List Event) → IsAllowed es → IsShaped (history_of es) }
{}

/// The history of at most 2^31 events that name keys below 2^31 has keys below 2^32: those of the events, and marks.
pub fn keys_are_small()
    ensures { (es : List Event) → length es ≤ 2 ^ 31 → NamesSmallKeys es → HasSmallKeys (history_of es) }
{}

/// Where no key is written twice with one value, by writes that are in the history, and no write writes what its key starts with, the
/// history has distinct values.
pub fn values_are_distinct()
    ensures { (es : List Event) → HasDistinctValues es → IsDifferentiated (history_of es) }
{}

/// Where each read of a log returns what was begun before, no read of its history lacks a source, and no read of a cut's history does.
pub fn reads_have_sources()
    ensures whole { (es : List Event) → IsAllowed es → ReturnsWhatWasBegun es → ¬ LacksSource (history_of es) }
    ensures cut { (es : List Event) (n : ℕ) → IsAllowed es → ReturnsWhatWasBegun es → ¬ LacksSource (history_of (take n es)) }
{}

/// In a cut of a log the calls of a client that ended have the operations that they have in the log, except lost writes whose value
/// is returned only later, and reads that got nothing. At most one operation comes after them.
pub fn sessions_of_cuts()
    ensures alike { (es : List Event) (n client : ℕ) → IsAllowed es
        → (ended : List Call) × (last rest : List Operation) × IsCutSession (take n es) es client ended last rest }
    ensures plain { (es : List Event) (n client : ℕ) → IsAllowed es → HasPlainEnds es → BeginsSession (take n es) es client }
{}

/// Where no call is lost, fails or gets nothing, each cut of a log of distinct values meets what the log meets. So the log does not
/// meet a criterion that a cut does not meet.
pub fn cuts_meet_what_the_log_meets()
    ensures { (es : List Event) (n : ℕ) → IsAllowed es → EndsWell es → HasStartsBefore es n → ReturnsWhatWasBegun es
        → IsDifferentiated (history_of es) → (criterion : Criterion)
        → Meets memory_answer (history_of es) criterion → Meets memory_answer (history_of (take n es)) criterion }
{}

/// Calls may be lost or fail, and reads may get nothing: a closed cut of a log meets what the log meets. So the log does not meet
/// a criterion that a closed cut does not meet. Values need not be distinct.
pub fn closed_cuts_meet_what_the_log_meets()
    ensures { (es : List Event) (n : ℕ) → IsAllowed es → IsClosedCut es n → (criterion : Criterion)
        → Meets memory_answer (history_of es) criterion → Meets memory_answer (history_of (take n es)) criterion }
{}

/// Where each read of a log returns what was begun before, values are distinct, and a read that got nothing of a key that is deleted
/// somewhere ends after the begin of such a delete, each cut is closed.
pub fn cuts_of_logs_in_order_are_closed()
    ensures { (es : List Event) (n : ℕ) → ReturnsWhatWasBegun es → FindsNothingInOrder es → HasDistinctValues es → IsClosedCut es n }
{}

/// A read whose return is unknown may be left out anywhere: a history meets each criterion with it exactly where it does without.
pub fn open_reads_may_be_left_out()
    ensures { (h whole : MemoryHistory) (s i x : ℕ) → IsInserted h whole s i (read x None) → (criterion : Criterion)
        → Meets memory_answer h criterion ↔ Meets memory_answer whole criterion }
{}

/// A write whose return is unknown, at the end of a session or alone in one, may be left out where no known read returns its value: a
/// history meets each criterion with it exactly where it does without.
pub fn unread_writes_may_be_left_out()
    ensures { (h whole : MemoryHistory) (s i x v : ℕ) → i ≡ length (session h s) → IsInserted h whole s i (write x v None)
        → IsUnread whole (write x v None) → (criterion : Criterion)
        → Meets memory_answer h criterion ↔ Meets memory_answer whole criterion }
{}

/// A fork whose value no known read returns may be left out, with the write of its mark.
pub fn unread_forks_may_be_left_out()
    ensures { (h whole : MemoryHistory) (s i t m x v : ℕ) → IsForked h whole s i t m x v → IsFresh h m → x ≢ m
        → IsUnread h (write x v None) → (criterion : Criterion)
        → Meets memory_answer h criterion ↔ Meets memory_answer whole criterion }
{}
