//! Laws of answers to logs: the contract of each function is the law, and the function does nothing.

ghost use Rattle.std.specs.Prelude.{Bool, List, Option, ◌≡◌, ◌↔◌, ℕ};
ghost use Rattle.order_memory.specs.Memory.{IsDifferentiated, memory_answer};
ghost use Rattle.cert_check.specs.Criteria.{Meets};
ghost use Rattle.log_events.specs.Events.{IsAllowed};
ghost use Rattle.log_events.specs.Values.{HasDistinctValues};
ghost use Rattle.log_choices.specs.Choices.{IsChoice, IsWhole};
ghost use Rattle.log_choices.specs.ChoiceTables.{choice_in};
ghost use Rattle.log_choices.specs.ChosenCriteria.{IsLogNo, LogMeets};
ghost use Rattle.log_choices.specs.ChosenHistories.{history_by};
ghost use Rattle.app_findings.specs.Findings.{answer_for};
ghost use Rattle.app_findings.specs.declared.finding.Findings.{Findings};
ghost use Rattle.app_logs.specs.LogAnswers.{AnswersLog};
ghost use Rattle.app_logs.specs.LogLines.{JudgesLog};
ghost use Rattle.app_logs.specs.Reports.{IsReportBy, IsReportOn};

use crate::following::Followed;
use app_judging::Answer;
use app_orders::{LogJudging, LogOrder};
use cert_check::Criterion;
use log_choices::Seen;
use log_choices::laws::a_no_of_what_is_forced_is_a_no;
use log_events::Event;
use pattern_check::Kind;

/// A report on the history of a log by what null reads saw leaves nothing unknown where that history has distinct values: a line is a yes
/// exactly if the history meets the criterion, and a no exactly if it does not.
pub fn distinct_values_are_decided()
    ensures met { (events : List Event) (saw : List (ℕ × Seen)) (report : Findings) → IsReportBy events saw report
        → IsDifferentiated (history_by events (choice_in saw)) → (criterion : Criterion)
        → answer_for report criterion ≡ Answer.Yes ↔ Meets memory_answer (history_by events (choice_in saw)) criterion }
    ensures excluded { (events : List Event) (saw : List (ℕ × Seen)) (report : Findings) → IsReportBy events saw report
        → IsDifferentiated (history_by events (choice_in saw)) → (criterion : Criterion)
        → ((kind : Kind) × (answer_for report criterion ≡ Answer.No kind))
        ↔ ¬ Meets memory_answer (history_by events (choice_in saw)) criterion }
{}

/// A no in a report on a log of distinct values is a no of the log: by no whole choice of what its null reads saw it meets the criterion.
pub fn a_no_is_a_no_of_every_choice()
    ensures { (in_time : Bool) (events : List Event) (report : Findings) → IsReportOn in_time events report → IsAllowed events
        → HasDistinctValues events → (criterion : Criterion) (kind : Kind) → answer_for report criterion ≡ Answer.No kind
        → IsLogNo in_time events criterion }
{
    a_no_of_what_is_forced_is_a_no();
}

/// A yes in a report by candidates of every null read is a yes of the log: by that whole choice it meets the criterion.
pub fn a_yes_by_every_read_is_a_yes()
    ensures { (in_time : Bool) (events : List Event) (saw : List (ℕ × Seen)) (report : Findings) → IsReportBy events saw report
        → IsChoice in_time events (choice_in saw) → IsWhole events (choice_in saw) → (criterion : Criterion)
        → answer_for report criterion ≡ Answer.Yes → LogMeets in_time events criterion }
{}

/// What `judge` writes of a log that was read to its end is three lines that are true of its history by what is forced of its null reads.
pub fn judged_lines_are_true()
    ensures { (judging : LogJudging) (source_before source_after writer_before writer_after : Option (List ℕ)) (followed : Followed)
        → AnswersLog (LogOrder.Judge judging) source_before source_after writer_before writer_after followed
        → JudgesLog source_before writer_before writer_after followed.torn }
{}
