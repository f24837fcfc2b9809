//! Answering a log that is read to its end.

ghost use Rattle.std.specs.Prelude.{◌≡◌, ◌≢◌, Err, IfErr, IfOk, OnOk, string_bytes};
ghost use Rattle.std.specs.Io.KnownBytes.{IsAtEnd};
ghost use Rattle.json_lines.specs.ReadCalls.{IsFurther};
ghost use Rattle.json_lines.specs.WriteCalls.{FailsToTake, PassesOn};
ghost use Rattle.log_reader.specs.Logs.{Log};
ghost use Rattle.app_explanations.specs.Report.{text_for};
ghost use Rattle.app_engine.specs.Expecting.{outcome_for};
ghost use Rattle.app_logs.specs.Endings.{WritesAnswerFront};
ghost use Rattle.app_logs.specs.LogAnswers.{AnswersLog, IsLogAnswer, IsLogError};
ghost use Rattle.app_logs.specs.ReadCalls.{ReadsWholeBy};

use crate::failure::LogError;
use crate::following::Followed;
use crate::forced_history::forced_history;
use crate::judging::report_on_last_log;
use crate::logged_run::LoggedRun;
use crate::noting::notes_text;
use crate::reading::{WholeLog, read_log};
use crate::writing::{history_text, names_text};
use app_engine::{
    Answered, Findings, PieceWork, SessionWork, WorkerThreads, Workers, outcome_of, report_text,
    write_output,
};
use app_orders::{LogJudging, LogOrder};
use json_lines::{MAX_WRITE_CALLS, Sink, Source};
use log_reader::EventReader;
use std::alloc::Global;
use std::sync::Wait;
use std::thread::Threads;

/// Reads a log to its end, makes the whole answer, and then writes it.
///
/// It writes nothing before the answer is made: after every error except a write fault the writer is unchanged, and after a write fault it
/// holds a beginning of the answer. It appends the details of a line that is refused.
pub(crate) fn answer_log<P: Threads + Wait + Sync + AllocGlobal, R: Source, W: Sink>(
    rt: &P,
    source: &mut R,
    writer: &mut W,
    order: &LogOrder,
    details: &mut String,
) -> Result<Followed, LogError>
    ensures answered { IfOk result (AnswersLog order.now (R.remaining source.old) (R.remaining source.new)
        (W.contents writer.old) (W.contents writer.new)) }
    ensures error { IfErr result (IsLogError (R.remaining source.old)) }
    ensures unwritten { IfErr result (λ e. e ≢ LogError.WriteFault → writer.new ≡ writer.old) }
    ensures begun { result ≡ Err LogError.WriteFault
        → WritesAnswerFront order.now (R.remaining source.old) (W.contents writer.old) (W.contents writer.new) }
    ensures read_on { IsFurther (R.remaining source.old) (R.remaining source.new) }
    ensures read_whole { result ≡ Err LogError.WriteFault → IsAtEnd (R.remaining source.new) }

    // Whatever the source and the writer report of their calls.
    ensures calls { ReadsWholeBy R.called result source.old source.new }
    ensures passed_on { OnOk result (PassesOn W.called writer.old writer.new) }
    ensures write_fault { result ≡ Err LogError.WriteFault → FailsToTake W.called MAX_WRITE_CALLS writer.old writer.new }
{
    let whole = read_log(rt.alloc(), source, shows_notes(order), details)?;
    let torn = whole.torn;
    let work = WorkerThreads::of(rt, workers_of(order));
    let answer = answer_to(&work, rt.alloc(), whole, order)?;
    write_output(writer, answer.text.as_bytes())?;
    Ok(Followed {
        outcome: answer.outcome,
        torn,
        late: None,
        says_order: false,
    })
}

// How many workers an order asks for.
fn workers_of(order: &LogOrder) -> Workers {
    match order {
        LogOrder::Judge(judging) => judging.workers,
        LogOrder::Explain(_)
        | LogOrder::ListFaults(_, _)
        | LogOrder::WriteHistory
        | LogOrder::WriteNames
        | LogOrder::WriteNotes => Workers::usual(),
    }
}

/// Whether the answer to a log shows notes.
pub(crate) fn shows_notes(order: &LogOrder) -> bool {
    match order {
        LogOrder::Explain(_) | LogOrder::ListFaults(_, _) | LogOrder::WriteNotes => true,
        LogOrder::Judge(_) | LogOrder::WriteHistory | LogOrder::WriteNames => false,
    }
}

/// The answer to a log. What it is not made of is let go of, or is not made. `work` checks the pieces of certificates, or goes over the
/// sessions.
///
/// Fails for want of memory alone.
pub(crate) fn answer_to<W: PieceWork + SessionWork>(
    work: &W,
    alloc: Global,
    whole: WholeLog,
    order: &LogOrder,
) -> Result<Answered, LogError>
    requires can_check { W.can_check work.now }
    requires can_work { W.can_work work.now }
    ensures answer { IfOk result (λ answer. IsLogAnswer order.now whole.reader.log (string_bytes answer.text) answer.outcome) }
    ensures error { IfErr result (λ e. e ≡ LogError.Memory) }
{
    match order {
        LogOrder::Judge(judging) => judged_log(work, alloc, whole.reader, *judging),
        LogOrder::Explain(_) | LogOrder::ListFaults(_, _) => answer_of_run(
            work, alloc, whole, order,
        ),
        LogOrder::WriteHistory => written_history(alloc, whole.reader),
        LogOrder::WriteNames => written_names(alloc, whole.reader),
        LogOrder::WriteNotes => written_notes(alloc, whole.reader),
    }
}

// The answer that the run of a log gives.
#[tactic(auto, using(crate::proofs::ReportLaws::answered))]
fn answer_of_run<W: PieceWork + SessionWork>(
    work: &W,
    alloc: Global,
    whole: WholeLog,
    order: &LogOrder,
) -> Result<Answered, LogError>
    requires can_check { W.can_check work.now }
    requires can_work { W.can_work work.now }
    ensures answer { IfOk result (λ answer. IsLogAnswer order.now whole.reader.log (string_bytes answer.text) answer.outcome) }
    ensures error { IfErr result (λ e. e ≡ LogError.Memory) }
{
    let run = LoggedRun::of(alloc, whole)?;
    let answer = run.answer(work, alloc, order);
    drop(run);
    answer
}

// The names of a log as a text.
#[tactic(auto, using(crate::proofs::ReportLaws::names_answered))]
fn written_names(alloc: Global, reader: EventReader) -> Result<Answered, LogError>
    ensures answer { IfOk result (λ answer.
        IsLogAnswer LogOrder.WriteNames reader.log (string_bytes answer.text) answer.outcome) }
    ensures error { IfErr result (λ e. e ≡ LogError.Memory) }
{
    let text = names_text(alloc, &reader)?;
    Ok(Answered::met(text))
}

// The notes of a log as a text.
#[tactic(auto, using(crate::proofs::ReportLaws::notes_answered))]
fn written_notes(alloc: Global, reader: EventReader) -> Result<Answered, LogError>
    ensures answer { IfOk result (λ answer.
        IsLogAnswer LogOrder.WriteNotes reader.log (string_bytes answer.text) answer.outcome) }
    ensures error { IfErr result (λ e. e ≡ LogError.Memory) }
{
    let text = notes_text(alloc, &reader)?;
    Ok(Answered::met(text))
}

// The history of a log as a text. The log is dropped before that is written.
#[tactic(auto, using(crate::proofs::ReportLaws::history_answered))]
fn written_history(alloc: Global, reader: EventReader) -> Result<Answered, LogError>
    ensures answer { IfOk result (λ answer.
        IsLogAnswer LogOrder.WriteHistory reader.log (string_bytes answer.text) answer.outcome) }
    ensures error { IfErr result (λ e. e ≡ LogError.Memory) }
{
    let in_time = reader.is_in_time();
    let log = reader.into_log();
    let history = forced_history(alloc, &log, in_time)?;
    drop(log);
    let text = history_text(alloc, &history)?;
    Ok(Answered::met(text))
}

// The report on a log. The names are dropped before the history is made.
fn judged_log<W: SessionWork>(
    work: &W,
    alloc: Global,
    reader: EventReader,
    judging: LogJudging,
) -> Result<Answered, LogError>
    requires { W.can_work work.now }
    ensures answer { IfOk result (λ answer.
        IsLogAnswer (LogOrder.Judge judging) reader.log (string_bytes answer.text) answer.outcome) }
    ensures error { IfErr result (λ e. e ≡ LogError.Memory) }
{
    let in_time = reader.is_in_time();
    let report = report_on_last_log(work, alloc, reader.into_log(), in_time)?;
    answer_of_report(alloc, report, judging)
}

/// The answer that a report gives.
///
/// Fails for want of memory alone.
pub(crate) fn answer_of_report(
    alloc: Global,
    report: Findings,
    judging: LogJudging,
) -> Result<Answered, LogError>
    ensures text { IfOk result (λ answer. string_bytes answer.text ≡ text_for report) }
    ensures outcome { IfOk result (λ answer. answer.outcome ≡ outcome_for judging.expected report) }
    ensures error { IfErr result (λ e. e ≡ LogError.Memory) }
{
    let text = report_text(alloc, &report);
    let outcome = outcome_of(&report, judging.expected);
    drop(report);
    Ok(Answered {
        text: text?,
        outcome,
    })
}
