//! The page of a log.

ghost use Rattle.std.specs.Prelude.{◌≡◌, ◌≢◌, Err, IfErr, IfOk, OnOk, string_bytes};
ghost use Rattle.std.specs.Io.KnownBytes.{IsAtEnd};
ghost use Rattle.json_lines.specs.ReadCalls.{CallsAtMost, EndsBy, FindsNoEnd, IsEnd, IsFurther};
ghost use Rattle.json_lines.specs.WriteCalls.{FailsToTake, PassesOn};
ghost use Rattle.app_engine.specs.Running.{IsOfInput};
ghost use Rattle.app_engine.specs.declared.input.TheConstants.{MAX_INPUT_BYTES};
ghost use Rattle.app_logs.specs.Alone.{IsMemoryError};
ghost use Rattle.app_pages.specs.Endings.{IsSomePageOfLog, ReadLogWhole, WritesPageFront};
ghost use Rattle.app_pages.specs.Writing.{FailsToWrite, IsPageOf, IsPageOfLog, IsSaidOfLog, WritesPage};
ghost use Rattle.app_pages.specs.Steps.Answers.{IsAnswerTo};

use crate::counting::reads_counted;
use crate::failure::PageError;
use app_engine::{
    MAX_READ_CALLS, PieceWork, SessionWork, WorkerThreads, Workers, read_input, write_output,
};
use app_logs::{Followed, LogError, LoggedRun, run_in_memory};
use app_orders::{ListForm, LogOrder, LongForm};
use json_lines::{MAX_WRITE_CALLS, Outcome, Sink, Source};
use show_page::{MOST_SAID, PageTexts, page_of, said_of};
use std::alloc::Global;
use std::sync::Wait;
use std::thread::Threads;

/// Reads a whole log, and writes the page of its history, of a list of its faults, and of its names, lines and notes, with what `explain`
/// says of the log in words, as a list and as a picture.
///
/// At most `most` faults are listed. A log is refused if it has more bytes than an input may have, or if one of its lines is refused. A
/// last line that is not whole is passed over, and the result says so. The details of a line that is refused, which
/// [`error_lines`](app_logs::error_lines) says after its reason, are appended to `details`.
///
/// Nothing is written before the page is made: after every error but a write fault the writer is as it was, and after a write fault it
/// holds a beginning of the page. A write fault comes only where a write call failed, and a read fault only where a read call did, or
/// [`MAX_READ_CALLS`] were made. No read call is made after the end or after one that failed.
///
/// The log is held in memory and read once: O(n (k + log n)) for a history of n operations in k sessions, and the cost of reading. It is
/// tested, not proved, that the notes, and the second lines of calls whose ends have one, are those of the log.
pub fn page_of_log<P: Threads + Wait + Sync + AllocGlobal, R: Source, W: Sink>(
    rt: &P,
    reader: &mut R,
    writer: &mut W,
    most: u32,
    details: &mut String,
) -> Result<Followed, PageError>
    ensures written { IfOk result (λ followed. WritesPage MAX_INPUT_BYTES (IsPageOfLog most followed.torn) (R.remaining reader.old)
        (W.contents writer.old) (W.contents writer.new)) }
    ensures met { IfOk result (λ followed. followed.outcome ≡ Outcome.Met) }
    ensures end { OnOk result (IsAtEnd (R.remaining reader.new)) }

    ensures failed { IfErr result (FailsToWrite most (R.remaining reader.old)) }
    ensures unwritten { IfErr result (λ e. e ≢ PageError.Log LogError.WriteFault → writer.new ≡ writer.old) }

    ensures read_on { IsFurther (R.remaining reader.old) (R.remaining reader.new) }
    ensures read_whole { ReadLogWhole result (IsAtEnd (R.remaining reader.new)) }
    ensures begun { result ≡ Err (PageError.Log LogError.WriteFault) → IsOfInput MAX_INPUT_BYTES (R.remaining reader.old)
        (λ bytes. WritesPageFront (IsSomePageOfLog most) bytes (W.contents writer.old) (W.contents writer.new)) }

    // Whatever the reader and the writer report of their calls.
    ensures calls { CallsAtMost R.called MAX_READ_CALLS reader.old reader.new }
    ensures end_found { ReadLogWhole result (EndsBy R.called MAX_READ_CALLS IsEnd reader.old reader.new) }
    ensures fault { result ≡ Err (PageError.Log LogError.ReadFault)
        → FindsNoEnd R.called MAX_READ_CALLS reader.old reader.new }
    ensures passed_on { OnOk result (PassesOn W.called writer.old writer.new) }
    ensures write_fault { result ≡ Err (PageError.Log LogError.WriteFault)
        → FailsToTake W.called MAX_WRITE_CALLS writer.old writer.new }
{
    let log = read_input(rt.alloc(), reader)?;
    let work = WorkerThreads::of(rt, Workers::usual());
    let page = page_of_bytes(&work, rt.alloc(), log.as_slice(), most, details)?;
    write_output(writer, page.bytes.as_slice())?;
    Ok(Followed {
        outcome: Outcome::Met,
        torn: page.torn,
        late: None,
        says_order: false,
    })
}

/// A page of a log.
#[derive(Drop)]
pub struct LogPage {
    /// The page.
    pub bytes: Vec<u8>,
    /// Whether the log's last line is not whole, and was passed over.
    pub torn: bool,
}

/// The page of a log in memory. `work` checks the pieces of certificates, or goes over the sessions.
///
/// Fails with the first line that is refused, and then appends its details; or for want of memory.
pub(crate) fn page_of_bytes<W: PieceWork + SessionWork>(
    work: &W,
    alloc: Global,
    log: &[u8],
    most: u32,
    details: &mut String,
) -> Result<LogPage, LogError>
    requires can_check { W.can_check work.now }
    requires can_work { W.can_work work.now }
    ensures page { IfOk result (λ page. IsPageOfLog most page.torn log.now page.bytes.items) }
    ensures error { IfErr result (IsMemoryError log.now) }
{
    let run = run_in_memory(alloc, log, details)?;
    let torn = run.torn();
    let bytes = page_of_run(work, alloc, &run, most);
    drop(run);
    Ok(LogPage {
        bytes: bytes?,
        torn,
    })
}

// The page of a run.
#[tactic(auto, using(crate::proofs::Joined::answers_make_page))]
fn page_of_run<W: PieceWork + SessionWork>(
    work: &W,
    alloc: Global,
    run: &LoggedRun,
    most: u32,
) -> Result<Vec<u8>, LogError>
    requires can_check { W.can_check work.now }
    requires can_work { W.can_work work.now }
    ensures page { IfOk result (λ bytes. IsPageOf most run.now.saw run.now.log bytes.items) }
    ensures error { IfErr result (λ e. e ≡ LogError.Memory) }
{
    let history = answer_of(work, alloc, run, LogOrder::WriteHistory)?;
    let report = answer_of(work, alloc, run, LogOrder::ListFaults(most, ListForm::Json))?;
    let names = answer_of(work, alloc, run, LogOrder::WriteNames)?;
    let notes = answer_of(work, alloc, run, LogOrder::WriteNotes)?;
    let lines = run.call_lines(alloc)?;
    let said = said_of_run(work, alloc, run, report.as_bytes(), most)?;
    let texts = PageTexts {
        history: history.as_bytes(),
        report: report.as_bytes(),
        names: names.as_bytes(),
        lines: lines.as_bytes(),
        notes: notes.as_bytes(),
    };
    let bytes = page_of(alloc, texts, said.as_slice())?;
    Ok(bytes)
}

// The part of the page of a run, with a list of its faults as JSON, that is seen where no script runs.
#[tactic(auto, using(crate::proofs::Joined::answers_make_said))]
fn said_of_run<W: PieceWork + SessionWork>(
    work: &W,
    alloc: Global,
    run: &LoggedRun,
    report: &[u8],
    most: u32,
) -> Result<Vec<u8>, LogError>
    requires can_check { W.can_check work.now }
    requires can_work { W.can_work work.now }
    ensures said { IfOk result (λ bytes. IsSaidOfLog run.now.saw run.now.log report.now bytes.items) }
    ensures error { IfErr result (λ e. e ≡ LogError.Memory) }
{
    let most = most.min(MOST_SAID);
    let counted = reads_counted(alloc, report)?;
    let words = answer_of(work, alloc, run, LogOrder::Explain(LongForm::Words))?;
    let list = answer_of(
        work,
        alloc,
        run,
        LogOrder::ListFaults(most, ListForm::Words),
    )?;
    let picture = answer_of(work, alloc, run, LogOrder::Explain(LongForm::Picture))?;
    let bytes = said_of(
        alloc,
        words.as_bytes(),
        counted.saturating_sub(u64::from(most)),
        list.as_bytes(),
        picture.as_bytes(),
    )?;
    Ok(bytes)
}

// The text of the answer to an order that does not judge.
fn answer_of<W: PieceWork + SessionWork>(
    work: &W,
    alloc: Global,
    run: &LoggedRun,
    order: LogOrder,
) -> Result<String, LogError>
    requires can_check { W.can_check work.now }
    requires can_work { W.can_work work.now }
    ensures answer { IfOk result (λ text. IsAnswerTo run.now.saw order run.now.log (string_bytes text)) }
    ensures error { IfErr result (λ e. e ≡ LogError.Memory) }
{
    let answer = run.answer(work, alloc, &order)?;
    Ok(answer.text)
}
