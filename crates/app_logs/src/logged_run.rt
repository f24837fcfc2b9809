//! The run that a log records, with what answers to it are made of.

ghost use Rattle.std.specs.Prelude.{◌≡◌, ◌≢◌, IfErr, IfOk, IfSome, OnOk, string_bytes};
ghost use Rattle.std.specs.Io.KnownBytes.{IsAtEnd};
ghost use Rattle.json_lines.specs.ReadCalls.{IsFurther};
ghost use Rattle.log_choices.specs.ChoiceTables.{choice_in};
ghost use Rattle.log_choices.specs.ChosenHistories.{history_by};
ghost use Rattle.log_reader.specs.Logs.{IsLogOf};
ghost use Rattle.app_explanations.specs.ExplanationTexts.{IsExplainedAs};
ghost use Rattle.app_explanations.specs.ListTexts.{IsListOf};
ghost use Rattle.app_logs.specs.LogAnswers.{IsLogAnswerBy, IsLogError};
ghost use Rattle.app_logs.specs.LogTexts.{AreCallLines, AreNames};
ghost use Rattle.app_logs.specs.ReadCalls.{ReadsWholeBy};
ghost use Rattle.app_logs.specs.Reports.{IsForcedIn, IsReportBy};
ghost use Rattle.app_logs.specs.Witnesses.{AreWitnesses};

use crate::answering::answer_of_report;
use crate::failure::LogError;
use crate::forced_history::{forced_of, history_as_seen};
use crate::line_numbers::lines_text;
use crate::noting::notes_text;
use crate::reading::{WholeLog, read_log};
use crate::witnesses::{ForcedLog, none_wanted, witnesses_of};
use crate::writing::{history_text, names_text};
use app_engine::{
    Answered, Findings, PieceWork, RunError, SessionWork, explained_as, list_in_long,
    report_on_long,
};
use app_orders::{LogJudging, LogOrder, LongForm};
use json_lines::Source;
use judge_memory::LongHistory;
use log_choices::{ForcedReads, LackingRead, Seen, left_out_by, origins_by};
use log_events::LoggedCall;
use log_reader::EventReader;
use model_objects::Table;
use order_causal::Rows;
use show_log_names::{LogNames, Witnesses};
use std::alloc::{AllocError, Global};
use std::marker::Model;

/// The run that a log records: the log, which was read to its end, its history by what is forced of its null reads, and what it says of
/// the operations of that history.
///
/// It answers any number of orders, and reads the log once.
#[derive(Drop)]
pub struct LoggedRun {
    pub(crate) reader: EventReader,
    torn: bool,
    /// What null reads saw, as far as it is forced.
    pub(crate) saw: Table<Seen>,
    history: LongHistory,
    /// For each session of the history, the calls that its operations represent.
    pub(crate) calls: Rows<LoggedCall>,
    /// The keys with reads that are left out, each with the number of these reads.
    pub(crate) left_out: Vec<(u32, u32)>,
    /// The first null read that is left with no candidate, if there is one.
    pub(crate) lacking: Option<LackingRead>,
}

impl Model for LoggedRun {
    ghost use Rattle.app_logs.specs.ReadLogs.{ReadLog};
    ghost use Rattle.app_logs.specs.Steps.Runs.{KeepsRun};

    ghost Value = { ReadLog };

    ghost view = { λ run. record { log = run.reader.log; torn = run.torn; saw = run.saw } };

    ghost invariant = { λ run. KeepsRun run.reader.log run.saw run.history run.calls run.lacking };
}

impl LoggedRun {
    /// Reads the log that a source has, with its notes, one event a line.
    ///
    /// Fails with the first line that is refused, and then appends to `details` what [`error_lines`](crate::error_lines) says of it besides
    /// its reason; for want of memory; and with a read fault only where a read call failed, or a line did not end in as many calls as are
    /// made for one. No read call is made after the end or after one that failed. O(n log n) for n calls and clients, the cost of
    /// `log_choices::forced_reads`, and O(n) for n bytes.
    pub fn read<R: Source>(
        alloc: Global,
        source: &mut R,
        details: &mut String,
    ) -> Result<LoggedRun, LogError>
        ensures whole { IfOk result (λ run. IfSome (R.remaining source.old) (λ bytes. IsLogOf bytes run.log run.torn)) }
        ensures forced { IfOk result (λ run. IsForcedIn run.log.in_time run.log.events run.saw) }
        ensures end { OnOk result (IsAtEnd (R.remaining source.new)) }
        ensures error { IfErr result (IsLogError (R.remaining source.old)) }
        ensures unwritten { IfErr result (λ e. e ≢ LogError.WriteFault) }
        ensures read_on { IsFurther (R.remaining source.old) (R.remaining source.new) }

        // Whatever the source reports of its calls.
        ensures calls { ReadsWholeBy R.called result source.old source.new }
    {
        let whole = read_log(alloc, source, true, details)?;
        let run = LoggedRun::of(alloc, whole)?;
        Ok(run)
    }

    /// The run of a log that was read.
    ///
    /// Fails for want of memory alone. O(n log n) for n calls and clients, and the cost of `log_choices::forced_reads`.
    pub(crate) fn of(alloc: Global, whole: WholeLog) -> Result<LoggedRun, AllocError>
        ensures log { IfOk result (λ run. run.log ≡ whole.reader.log) }
        ensures torn { IfOk result (λ run. run.torn ≡ whole.torn) }
        ensures forced { IfOk result (λ run. IsForcedIn run.log.in_time run.log.events run.saw) }
    {
        let WholeLog { reader, torn } = whole;
        let ForcedReads {
            seen: saw,
            first_lacking: lacking,
            ..
        } = forced_of(alloc, reader.log(), reader.is_in_time())?;
        let history = history_as_seen(alloc, reader.log(), &saw)?;
        let calls = origins_by(alloc, reader.log(), &saw)?;
        let left_out = left_out_by(alloc, reader.log(), &saw)?;
        Ok(LoggedRun {
            reader,
            torn,
            saw,
            history,
            calls,
            left_out,
            lacking,
        })
    }

    /// Whether the log's last line is not whole, and was passed over.
    pub fn torn(&self) -> bool
        ensures { result ≡ self.now.torn }
    {
        self.torn
    }

    /// The answer to an order on the log. `work` checks the pieces of certificates, or goes over the sessions, in the place of the order's
    /// workers. The answer is given once: `every` of an order to judge is passed over.
    ///
    /// Fails for want of memory alone. O(n (k + log n)) for a history of n operations in k sessions.
    pub fn answer<W: PieceWork + SessionWork>(
        &self,
        work: &W,
        alloc: Global,
        order: &LogOrder,
    ) -> Result<Answered, LogError>
        requires can_check { W.can_check work.now }
        requires can_work { W.can_work work.now }
        ensures answer { IfOk result (λ answer.
            IsLogAnswerBy self.now.saw order.now self.now.log (string_bytes answer.text) answer.outcome) }
        ensures error { IfErr result (λ e. e ≡ LogError.Memory) }
    {
        let history = self.history();
        match order {
            LogOrder::Judge(judging) => self.judged(work, alloc, *judging),
            LogOrder::Explain(form) => {
                let names = LogNames {
                    tables: self,
                    witnesses: self.witnesses_for(work, alloc, *form)?,
                };
                Ok(Answered::met(explained_as(work, alloc, history, &names, *form)?))
            }
            LogOrder::ListFaults(most, form) => {
                let names = LogNames {
                    tables: self,
                    witnesses: Witnesses::unwanted(),
                };
                Ok(Answered::met(list_in_long(work, alloc, history, &names, *most, *form)?))
            }
            LogOrder::WriteHistory => Ok(Answered::met(history_text(alloc, history)?)),
            LogOrder::WriteNames => Ok(Answered::met(self.names(alloc)?)),
            LogOrder::WriteNotes => Ok(Answered::met(notes_text(alloc, &self.reader)?)),
        }
    }

    // The answer to an order to judge.
    fn judged<W: SessionWork>(
        &self,
        work: &W,
        alloc: Global,
        judging: LogJudging,
    ) -> Result<Answered, LogError>
        requires { W.can_work work.now }
        ensures answer { IfOk result (λ answer.
            IsLogAnswerBy self.now.saw (LogOrder.Judge judging) self.now.log (string_bytes answer.text) answer.outcome) }
        ensures error { IfErr result (λ e. e ≡ LogError.Memory) }
    {
        let report = self.report(work, alloc)?;
        answer_of_report(alloc, report, judging)
    }

    /// What is known of orders that explain every read of the log, those too that its history leaves out, for each criterion with a yes in
    /// the report on it. Nothing is looked for where no read is left out.
    ///
    /// Fails for want of memory alone, at the cost of the report, and of one more for each walk over the log that is tried.
    pub fn witnesses<W: SessionWork>(&self, work: &W, alloc: Global) -> Result<Witnesses, RunError>
        requires { W.can_work work.now }
        ensures found { IfOk result (AreWitnesses self.now.log.in_time self.now.log.events) }
        ensures error { IfErr result (λ e. e ≡ RunError.Memory) }
    {
        if self.left_out.is_empty() {
            return Ok(none_wanted());
        }
        let report = self.report(work, alloc)?;
        let log = ForcedLog {
            log: self.reader.log(),
            in_time: self.reader.is_in_time(),
            forced: &self.saw,
        };
        let found = witnesses_of(work, alloc, &log, &report);
        drop(report);
        found
    }

    // The same, where a form of an explanation shows it.
    fn witnesses_for<W: SessionWork>(
        &self,
        work: &W,
        alloc: Global,
        form: LongForm,
    ) -> Result<Witnesses, RunError>
        requires { W.can_work work.now }
        ensures found { IfOk result (AreWitnesses self.now.log.in_time self.now.log.events) }
        ensures error { IfErr result (λ e. e ≡ RunError.Memory) }
    {
        match form {
            LongForm::Words => self.witnesses(work, alloc),
            LongForm::Json | LongForm::Picture => Ok(none_wanted()),
        }
    }

    // The report on the log.
    fn report<W: SessionWork>(&self, work: &W, alloc: Global) -> Result<Findings, RunError>
        requires { W.can_work work.now }
        ensures report { IfOk result (IsReportBy self.now.log.events self.now.saw) }
        ensures error { IfErr result (λ e. e ≡ RunError.Memory) }
    {
        let report = report_on_long(work, alloc, self.history())?;
        Ok(report)
    }

    // The history of the log by what is forced of its null reads.
    fn history(&self) -> &LongHistory
        ensures { result.now ≡ history_by self.now.log.events (choice_in self.now.saw) }
    {
        &self.history
    }

    // The names of the log.
    fn names(&self, alloc: Global) -> Result<String, AllocError>
        ensures { IfOk result (λ text. AreNames self.now.log (string_bytes text)) }
    {
        names_text(alloc, &self.reader)
    }

    /// The lines of its calls as JSON and a line feed: for each session of the history a list with the line of each operation, from 1. That
    /// is the line on which its call begins. Where the line of its end has a note, the operation has a list of both lines.
    ///
    /// A lost write or delete that was seen is three operations with the same lines.
    ///
    /// Fails for want of memory alone. O(n) for n calls and bytes of their notes. Tests, not proofs, cover which calls have a
    /// second line, and which line that is.
    pub fn call_lines(&self, alloc: Global) -> Result<String, AllocError>
        ensures { IfOk result (λ text. AreCallLines self.now.saw self.now.log (string_bytes text)) }
    {
        lines_text(alloc, &self.reader, &self.calls)
    }
}
