//! What holds of the histories that a log has by choices of what its null reads saw. The functions do nothing: what they ensure is the law.

ghost use Rattle.std.specs.Prelude.{◌≡◌, ◌≢◌, ◌≤◌, ◌^◌, ℕ, Bool, List, None, Option, Some, false, length, take, true};
ghost use Rattle.order_memory.specs.Memory.{initial, IsDifferentiated, memory_answer, Reads, Writes};
ghost use Rattle.order_memory.specs.Relations.{CO, ReadsFrom};
ghost use Rattle.order_memory.specs.SourceOrder.{LacksSource};
ghost use Rattle.cert_check.specs.Criteria.{Meets};
ghost use Rattle.log_events.specs.declared.event.Ending.TheVariants.{Failed, Lost};
ghost use Rattle.log_events.specs.Cuts.{ReturnsWhatWasBegun};
ghost use Rattle.log_events.specs.Events.{IsAllowed, IsEnded};
ghost use Rattle.log_events.specs.Histories.{deleted, history_of, key};
ghost use Rattle.log_events.specs.Shapes.{HasSmallKeys, IsShaped, NamesSmallKeys};
ghost use Rattle.log_events.specs.Values.{HasDistinctValues};
ghost use Rattle.log_choices.specs.Choices.{Choice, IsChoice, IsNullRead, IsPartOf, leaves_out};
ghost use Rattle.log_choices.specs.ChosenCriteria.{IsLogNo, LogMeets, MeetsBy};
ghost use Rattle.log_choices.specs.ChosenHistories.{history_by};
ghost use Rattle.log_choices.specs.Effects.{TookEffectBy};
ghost use Rattle.log_choices.specs.Forced.{Comes, IsForcedChoice, IsOut, LacksCandidates};
ghost use Rattle.log_choices.specs.TimedLogs.{GotWhatWasBegun};

use cert_check::Criterion;
use cert_check::laws::{
    causal_convergence_is_causally_consistent, causal_memory_is_causally_consistent,
};
use log_events::{ClientCall, Ending, Event};
use model_history::OpId;
use model_objects::Memory;

/// The history of a log is the one by the choice that leaves all null reads out.
pub fn history_of_a_log_leaves_null_reads_out()
    ensures { (es : List Event) → history_of es ≡ history_by es leaves_out }
{}

/// By each choice the start of the history is a table, each known return fits its call, and in each session the known returns come first.
pub fn chosen_histories_are_shaped()
    ensures { (es : List Event) (f : Choice) → IsAllowed es → IsShaped (history_by es f) }
{}

/// By each choice the history of at most 2^31 events that name keys below 2^31 has keys below 2^32.
pub fn chosen_keys_are_small()
    ensures { (es : List Event) (f : Choice) → IsAllowed es → length es ≤ 2 ^ 31 → NamesSmallKeys es
        → HasSmallKeys (history_by es f) }
{}

/// Where no key is written twice with one value, by writes that are in the history, and no write writes what its key starts with, the
/// history has distinct values by each choice.
pub fn chosen_values_are_distinct()
    ensures { (es : List Event) (f : Choice) → IsAllowed es → HasDistinctValues es → IsDifferentiated (history_by es f) }
{}

/// Where each read of a log returns what was begun before, and each null read saw a delete that was begun before it ended, no read of the
/// history lacks a source.
pub fn chosen_reads_have_sources()
    ensures { (es : List Event) (f : Choice) → IsAllowed es → ReturnsWhatWasBegun es → IsChoice true es f
        → ¬ LacksSource (history_by es f) }
{}

/// A null read that is not left out reads from the write of the delete that it saw, or it read the initial value where it saw the start.
pub fn null_reads_read_what_they_saw()
    ensures of_delete { (in_time : Bool) (es : List Event) (f : Choice) → IsAllowed es → HasDistinctValues es → IsChoice in_time es f
        → (client x i j p : ℕ) → IsNullRead es client x i j → f i ≡ Some (Some p)
        → (w r : OpId) × ReadsFrom (history_by es f) w r × Writes (history_by es f) w (key x) (deleted p)
        × Reads (history_by es f) r (key x) (deleted p) }
    ensures of_start { (in_time : Bool) (es : List Event) (f : Choice) → IsAllowed es → IsChoice in_time es f
        → (client x i j : ℕ) → IsNullRead es client x i j → f i ≡ Some None
        → (r : OpId) × Reads (history_by es f) r (key x) (initial (history_by es f) (key x)) }
{}

/// Null reads may be left out: a choice that leaves out more of them gives a history that meets what it meets with them. So a log does
/// not meet a criterion that its history without null reads does not meet. Values need not be distinct.
pub fn null_reads_may_be_left_out()
    ensures some { (es : List Event) (g f : Choice) → IsAllowed es → IsPartOf es g f → (criterion : Criterion)
        → Meets memory_answer (history_by es f) criterion → Meets memory_answer (history_by es g) criterion }
    ensures all { (in_time : Bool) (es : List Event) → IsAllowed es → (criterion : Criterion)
        → ¬ Meets memory_answer (history_of es) criterion → IsLogNo in_time es criterion }
{}

/// In the order of time null reads have fewer candidates: what a log meets in it, it meets without it.
pub fn the_order_of_time_only_takes_candidates_away()
    ensures { (es : List Event) (criterion : Criterion) → LogMeets true es criterion → LogMeets false es criterion }
{}

/// By a whole choice by which the history meets a criterion, what is forced is in its causal order: where one call comes before another,
/// and that one took effect, the first took effect before it.
pub fn what_is_forced_is_in_causal_order()
    ensures { (in_time : Bool) (es : List Event) → IsAllowed es → HasDistinctValues es → (f : Choice) (criterion : Criterion)
        → MeetsBy in_time es f criterion → (a b : ℕ) → Comes in_time es a b → (q : OpId) → TookEffectBy es f b q
        → (o : OpId) × TookEffectBy es f a o × CO (history_by es f) o q }
{
    causal_memory_is_causally_consistent::<Memory>();
    causal_convergence_is_causally_consistent::<Memory>();
}

/// By a whole choice by which the history meets a criterion, no null read saw what is out for it.
pub fn what_is_out_was_not_seen()
    ensures { (in_time : Bool) (es : List Event) → IsAllowed es → HasDistinctValues es → (f : Choice) (criterion : Criterion)
        → MeetsBy in_time es f criterion → (r : ℕ) (c : Option ℕ) → IsOut in_time es r c → f r ≢ Some c }
{
    causal_memory_is_causally_consistent::<Memory>();
    causal_convergence_is_causally_consistent::<Memory>();
}

/// Where a null read is left with no candidate, the log meets no criterion.
pub fn lack_of_candidates_is_a_no()
    ensures { (in_time : Bool) (es : List Event) → IsAllowed es → HasDistinctValues es → (r : ℕ) → LacksCandidates in_time es r
        → (criterion : Criterion) → IsLogNo in_time es criterion }
{
    causal_memory_is_causally_consistent::<Memory>();
    causal_convergence_is_causally_consistent::<Memory>();
}

/// Where a call that neither failed nor was lost has to come before itself, the log meets no criterion.
pub fn going_round_is_a_no()
    ensures { (in_time : Bool) (es : List Event) → IsAllowed es → HasDistinctValues es
        → (client i j : ℕ) (call : ClientCall) (ending : Ending) → IsEnded es client call i j ending → ending ≢ Failed → ending ≢ Lost
        → Comes in_time es i i → (criterion : Criterion) → IsLogNo in_time es criterion }
{
    causal_memory_is_causally_consistent::<Memory>();
    causal_convergence_is_causally_consistent::<Memory>();
}

/// Where the history by a choice of what is forced does not meet a criterion, the log does not meet it.
pub fn a_no_of_what_is_forced_is_a_no()
    ensures { (in_time : Bool) (es : List Event) → IsAllowed es → HasDistinctValues es → (g : Choice) (criterion : Criterion)
        → IsForcedChoice in_time es g → ¬ Meets memory_answer (history_by es g) criterion → IsLogNo in_time es criterion }
{
    causal_memory_is_causally_consistent::<Memory>();
    causal_convergence_is_causally_consistent::<Memory>();
}

/// In a log of distinct values in the order of time, the first events meet what the whole meets. So the log does not meet a criterion that
/// a cut does not meet, with calls that fail, are lost or are pending.
pub fn cuts_in_time_meet_what_the_log_meets()
    ensures { (es : List Event) (n : ℕ) → IsAllowed es → GotWhatWasBegun es → HasDistinctValues es → (criterion : Criterion)
        → LogMeets true es criterion → LogMeets true (take n es) criterion }
{
    causal_memory_is_causally_consistent::<Memory>();
    causal_convergence_is_causally_consistent::<Memory>();
}
