//! Laws of runs: the contract of each function is the law, and the function does nothing.

ghost use Rattle.std.specs.Prelude.{List, Option, Some, length, ◌+◌, ◌*◌, ◌<◌, ◌≤◌, ◌≡◌, ◌↔◌, ◌⊎◌, ℕ};
ghost use Rattle.order_memory.specs.Memory.{IsDifferentiated, MemoryHistory, memory_answer};
ghost use Rattle.cert_check.specs.Criteria.{Meets};
ghost use Rattle.json_histories.specs.AnyForm.{form_of, IsAnyHistory, IsJson};
ghost use Rattle.app_engine.specs.Failure.{failure_status};
ghost use Rattle.app_engine.specs.InputLengths.{length_for, most_bytes};
ghost use Rattle.json_lines.specs.ReadCalls.{CallOutcome, CallsAtMost};
ghost use Rattle.app_engine.specs.ReadCalls.{GivesBytes, IdlesAtMost};
ghost use Rattle.app_findings.specs.Findings.{answer_for};
ghost use Rattle.app_engine.specs.Running.{Completes, Fails, IsOutput, IsOutputError};
ghost use Rattle.app_orders.specs.declared.length.Length.{Length};
ghost use Rattle.app_orders.specs.declared.length.Length.TheVariants.{Any};
ghost use Rattle.app_orders.specs.declared.form.ListForm.TheVariants.{Json, Words};
ghost use Rattle.judge_memory.specs.LongHistories.{IsLongHistory};
ghost use Rattle.app_explanations.specs.Agreeing.{Agree};
ghost use Rattle.app_explanations.specs.Certifying.{IsCertifiedExplanation};
ghost use Rattle.app_explanations.specs.Explaining.{IsExplanationAt};
ghost use Rattle.app_explanations.specs.ExplainingInWords.{IsWordedAt};
ghost use Rattle.app_explanations.specs.ListingFaults.{IsListedAs};
ghost use Rattle.app_explanations.specs.Report.{IsReport, IsReportAt};

use crate::failure::RunError;
use app_judging::Answer;
use app_orders::Order;
use cert_check::Criterion;
use json_histories::AnyHistory;
use json_lines::{Outcome, Source};
use pattern_check::Kind;

/// A report on the form of a history is a report on that history. For instance, it cannot be one on a history with another start.
pub fn report_is_on_the_history_of_its_input()
    ensures { (input text : List ℕ) (history : AnyHistory) → IsAnyHistory history → IsJson input (form_of history)
        → (report : IsReport input text) → report.history ≡ history }
{}

/// A report on a memory history of distinct values leaves nothing unknown: a line is a yes exactly where the history meets the
/// criterion, and a no exactly where it does not.
pub fn distinct_values_are_decided()
    ensures met { (input text : List ℕ) (report : IsReport input text) (h : MemoryHistory) (criterion : Criterion)
        → report.history ≡ AnyHistory.Memory h → IsDifferentiated h
        → answer_for report.report criterion ≡ Answer.Yes ↔ Meets memory_answer h criterion }
    ensures excluded { (input text : List ℕ) (report : IsReport input text) (h : MemoryHistory) (criterion : Criterion)
        → report.history ≡ AnyHistory.Memory h → IsDifferentiated h
        → ((kind : Kind) × (answer_for report.report criterion ≡ Answer.No kind)) ↔ ¬ Meets memory_answer h criterion }
{}

/// A report on the form of a memory history of any length is a report on that history.
pub fn long_report_is_on_the_history_of_its_input()
    ensures { (input text : List ℕ) (h : MemoryHistory) → IsLongHistory h → IsJson input (form_of (AnyHistory.Memory h))
        → (report : IsReportAt Any input text) → report.history ≡ AnyHistory.Memory h }
{}

/// A report on a memory history of any length and of distinct values leaves nothing unknown: a line is a yes exactly where the history
/// meets the criterion, and a no exactly where it does not.
pub fn long_distinct_values_are_decided()
    ensures met { (input text : List ℕ) (report : IsReportAt Any input text) (h : MemoryHistory) (criterion : Criterion)
        → report.history ≡ AnyHistory.Memory h → IsDifferentiated h
        → answer_for report.report criterion ≡ Answer.Yes ↔ Meets memory_answer h criterion }
    ensures excluded { (input text : List ℕ) (report : IsReportAt Any input text) (h : MemoryHistory) (criterion : Criterion)
        → report.history ≡ AnyHistory.Memory h → IsDifferentiated h
        → ((kind : Kind) × (answer_for report.report criterion ≡ Answer.No kind)) ↔ ¬ Meets memory_answer h criterion }
{}

/// What `explain` shows of an input agrees with what `judge` says of it: in words, as JSON, with certificates and in lists of faults. One
/// never says yes where the other says no. On a memory of distinct values both say the same word, and within the limits a no names the same
/// kind.
pub fn explanations_agree_with_reports()
    ensures words { (long : Length) (input text words : List ℕ) (report : IsReportAt long input text)
        (told : IsWordedAt long input words) → Agree report.history report.report told.findings }
    ensures json { (long : Length) (input text json : List ℕ) (report : IsReportAt long input text)
        (told : IsExplanationAt long input json) → Agree report.history report.report told.said.findings }
    ensures certificates { (input text json : List ℕ) (report : IsReport input text)
        (told : IsCertifiedExplanation input json) → Agree report.history report.report told.said.findings }
    ensures list_in_words { (long : Length) (most : ℕ) (input text list : List ℕ) (report : IsReportAt long input text)
        (told : IsListedAs Words long most input list) → Agree report.history report.report told.findings }
    ensures list_as_json { (long : Length) (most : ℕ) (input text list : List ℕ) (report : IsReportAt long input text)
        (told : IsListedAs Json long most input list) → Agree report.history report.report told.said.findings }
{}

/// An input that has an answer is never refused. Only want of memory can come in place of its answer.
pub fn answered_input_is_not_refused()
    ensures { (order : Order) (input text : List ℕ) (error : RunError) → IsOutput order input text
        → IsOutputError order input error → failure_status error ≡ 4 }
{}

/// An input has one refusal at most: no other refusal can come in its place.
pub fn input_is_refused_in_one_way()
    ensures { (order : Order) (input : List ℕ) (first second : RunError) → IsOutputError order input first
        → IsOutputError order input second → failure_status first ≡ 1 → failure_status second ≡ 1 → first ≡ second }
{}

/// An input that is too long gets no answer, and no refusal but that for its length. Only want of memory or a read fault can come
/// in its place.
pub fn too_long_input_is_refused_as_such()
    ensures output { (order : Order) (bytes : List ℕ) (before after : Option (List ℕ)) (outcome : Outcome)
        → most_bytes (length_for order) < length bytes → ¬ Completes order (Some bytes) before after outcome }
    ensures failure { (order : Order) (bytes : List ℕ) (error : RunError)
        → most_bytes (length_for order) < length bytes
        → Fails order (Some bytes) error → (error ≡ RunError.TooLong) ⊎ ((error ≡ RunError.Memory) ⊎ (error ≡ RunError.ReadFault)) }
{}

/// A count that grows by at most one with each call of a source grows by no more than the number of calls that were made.
pub fn calls_are_counted<S: Source>()
    ensures { (count : S → ℕ) → ((a : S) (outcome : CallOutcome) (b : S) → S.called a outcome b → count b ≤ count a + 1)
        → (most : ℕ) (old new : S) → CallsAtMost S.called most old new → count new ≤ count old + most }
{}

/// Where a count never falls, and grows with each call of a source that gives a byte, its growth bounds the calls that are made, as long as
/// no more than `most` in a row give none. Such a count is that of the bytes: so an input of n bytes of any length is read in no more than
/// (n + 1) times `most` calls.
pub fn long_calls_are_bounded<S: Source>()
    ensures { (count : S → ℕ) → ((a : S) (outcome : CallOutcome) (b : S) → S.called a outcome b → count a ≤ count b)
        → ((a : S) (outcome : CallOutcome) (b : S) → S.called a outcome b → GivesBytes outcome → count a < count b)
        → (most bytes : ℕ) (old new : S) → IdlesAtMost S.called most old new → count new ≤ count old + bytes
        → CallsAtMost S.called ((bytes + 1) * most) old new }
{}
