//! One run of the program: from the bytes of its input to the bytes of its answer.
ghost use Rattle.std.specs.Prelude.{◌≡◌, ◌≢◌, ◌⊎◌, Err, IfErr, IfOk, IfSome, OnOk, string_bytes};
ghost use Rattle.std.specs.Io.KnownBytes.{IsAtEnd};
ghost use Rattle.app_engine.specs.Failure.{failure_status};
ghost use Rattle.json_lines.specs.ReadCalls.{IsEnd, IsFurther};
ghost use Rattle.json_lines.specs.WriteCalls.{FailsToTake, PassesOn};
ghost use Rattle.app_engine.specs.Endings.{ReadWhole, WritesFront};
ghost use Rattle.app_engine.specs.MemoryLines.{JudgesMemory};
ghost use Rattle.app_engine.specs.InputLengths.{CallsFor, EndsFor, FindsNoEndFor, length_for};
ghost use Rattle.app_engine.specs.Running.{Completes, Fails, HasOutcome, IsOfInputFor, IsOutput, IsOutputError, WritesOutput};

use crate::answered::Answered;
use crate::checking::check;
use crate::driving::drive_input;
use crate::expecting::{outcome_of, report_on_input};
use crate::explaining::{explain_as, explain_long};
use crate::failure::RunError;
use crate::input::read_input_for;
use crate::line_judge::judge_each;
use crate::listing_faults::list_faults;
use crate::long_refuting::refute_long;
use crate::output::write_output;
use crate::refuting::refute;
use crate::replaying::replay;
use app_explanations::report_text;
use app_orders::{Form, Judging, Length, Listing, LongForm, Order};
use json::Scratch;
use json_lines::{MAX_READ_CALLS, MAX_WRITE_CALLS, Outcome, Sink, Source};
use judge_workers::{WorkerThreads, Workers};
use std::alloc::Global;
use std::sync::Wait;
use std::thread::Threads;

/// Reads the whole input, makes the whole answer that the order asks for, and then writes it. Returns what comes of the answer: where
/// criteria are expected to be met, whether they are, and else [`Outcome::Met`].
///
/// It writes nothing before the answer is made: after every error but a write fault the writer is as it was, and after a write fault it
/// holds a beginning of the answer. A write fault comes only where a write call failed, and a read fault only where a read call did, or
/// as many were made as [`read_input_for`] makes. No read call is made after the end or after one that failed. It costs O(n log n) for
/// an input of n bytes, and what [`findings_of`](crate::findings_of) or [`PieceWork::answer_of`](crate::PieceWork::answer_of) takes for
/// its history, or [`live_script::replay`] for its script.
pub fn run<P: Threads + Wait + Sync + AllocGlobal, R: Source, W: Sink>(
    rt: &P,
    reader: &mut R,
    writer: &mut W,
    order: &Order,
) -> Result<Outcome, RunError>
    ensures answered { IfOk result (Completes order.now (R.remaining reader.old)
        (W.contents writer.old) (W.contents writer.new)) }
    ensures end { OnOk result (IsAtEnd (R.remaining reader.new)) }

    ensures memory { (judging : Judging) → order.now ≡ Order.Judge judging → IfOk result (λ _.
        JudgesMemory judging.length (R.remaining reader.old) (W.contents writer.old) (W.contents writer.new)) }
    ensures failed { IfErr result (Fails order.now (R.remaining reader.old)) }
    ensures unwritten { IfErr result (λ e. e ≢ RunError.WriteFault → writer.new ≡ writer.old) }

    ensures read_on { IsFurther (R.remaining reader.old) (R.remaining reader.new) }
    ensures read_whole { ReadWhole result (IsAtEnd (R.remaining reader.new)) }
    ensures begun { result ≡ Err RunError.WriteFault → IsOfInputFor order.now (R.remaining reader.old)
        (λ input. WritesFront order.now input (W.contents writer.old) (W.contents writer.new)) }

    // Whatever the reader and the writer report of their calls.
    ensures calls { CallsFor R.called (length_for order.now) MAX_READ_CALLS reader.old reader.new }
    ensures end_found { ReadWhole result (EndsFor R.called (length_for order.now) MAX_READ_CALLS IsEnd reader.old reader.new) }
    ensures fault { result ≡ Err RunError.ReadFault → FindsNoEndFor R.called (length_for order.now) MAX_READ_CALLS reader.old reader.new }
    ensures passed_on { OnOk result (PassesOn W.called writer.old writer.new) }
    ensures write_fault { result ≡ Err RunError.WriteFault → FailsToTake W.called MAX_WRITE_CALLS writer.old writer.new }
{
    let mut input = Vec::new(rt.alloc());
    run_keeping(rt, reader, writer, order, &mut input)
}

/// The same as [`run`], with its errors and its cost, and the input is kept for the caller, who may say what is wrong with it.
///
/// After an answer, a refusal or a write fault the whole input is kept. Where it is too long or could not be read, what was kept before
/// stays.
pub fn run_keeping<P: Threads + Wait + Sync + AllocGlobal, R: Source, W: Sink>(
    rt: &P,
    reader: &mut R,
    writer: &mut W,
    order: &Order,
    input: &mut Vec<u8>,
) -> Result<Outcome, RunError>
    ensures answered { IfOk result (Completes order.now (R.remaining reader.old)
        (W.contents writer.old) (W.contents writer.new)) }
    ensures end { OnOk result (IsAtEnd (R.remaining reader.new)) }

    ensures failed { IfErr result (Fails order.now (R.remaining reader.old)) }
    ensures unwritten { IfErr result (λ e. e ≢ RunError.WriteFault → writer.new ≡ writer.old) }
    ensures kept { (input.new ≡ input.old) ⊎ IfSome (R.remaining reader.old) (λ bytes. input.new.items ≡ bytes) }
    ensures whole { OnOk result (IfSome (R.remaining reader.old) (λ bytes. input.new.items ≡ bytes)) }
    ensures begun_kept { result ≡ Err RunError.WriteFault
        → WritesFront order.now input.new.items (W.contents writer.old) (W.contents writer.new) }
    ensures output { OnOk result (WritesOutput order.now input.new.items (W.contents writer.old) (W.contents writer.new)) }
    ensures refused { IfErr result (λ e. failure_status e ≡ 1 → e ≢ RunError.TooLong → IsOutputError order.now input.new.items e) }
    ensures unread { IfErr result (λ e. (e ≡ RunError.TooLong) ⊎ (e ≡ RunError.ReadFault) → input.new ≡ input.old) }

    ensures read_on { IsFurther (R.remaining reader.old) (R.remaining reader.new) }
    ensures read_whole { ReadWhole result (IsAtEnd (R.remaining reader.new)) }
    ensures begun { result ≡ Err RunError.WriteFault → IsOfInputFor order.now (R.remaining reader.old)
        (λ input. WritesFront order.now input (W.contents writer.old) (W.contents writer.new)) }

    // Whatever the reader and the writer report of their calls.
    ensures calls { CallsFor R.called (length_for order.now) MAX_READ_CALLS reader.old reader.new }
    ensures end_found { ReadWhole result (EndsFor R.called (length_for order.now) MAX_READ_CALLS IsEnd reader.old reader.new) }
    ensures fault { result ≡ Err RunError.ReadFault → FindsNoEndFor R.called (length_for order.now) MAX_READ_CALLS reader.old reader.new }
    ensures passed_on { OnOk result (PassesOn W.called writer.old writer.new) }
    ensures write_fault { result ≡ Err RunError.WriteFault → FailsToTake W.called MAX_WRITE_CALLS writer.old writer.new }
{
    *input = read_input_for(rt.alloc(), reader, length_of(order))?;
    let answered = answer_and_outcome(rt, rt.alloc(), input.as_slice(), order)?;
    write_output(writer, answered.text.as_bytes())?;
    Ok(answered.outcome)
}

/// How long the history of an order may be.
fn length_of(order: &Order) -> Length
    ensures { result ≡ length_for order.now }
{
    match order {
        Order::Judge(judging) => judging.length,
        Order::ExplainLong(_) => Length::Any,
        Order::ListFaults(listing) => listing.length,
        Order::Refute(length) => *length,
        Order::JudgeLines(_)
        | Order::Check(_)
        | Order::Explain(_)
        | Order::Replay
        | Order::Drive(_) => Length::Limited,
    }
}

/// The whole answer to an input, as the order asks.
///
/// Refuses what is no input of the order, and fails for want of memory. Its cost is that of reading the input, and what
/// [`report_on`](crate::report_on) or [`PieceWork::answer_of`](crate::PieceWork::answer_of) takes for its history, or
/// [`live_script::replay`] for its script.
pub fn answer_to<T: Threads + Wait + Sync>(
    rt: &T,
    alloc: Global,
    input: &[u8],
    order: &Order,
) -> Result<String, RunError>
    ensures output { IfOk result (λ text. IsOutput order.now input.now (string_bytes text)) }
    ensures error { IfErr result (IsOutputError order.now input.now) }
{
    let answered = answer_and_outcome(rt, alloc, input, order)?;
    Ok(answered.text)
}

// The whole answer, and what comes of it.
fn answer_and_outcome<T: Threads + Wait + Sync>(
    rt: &T,
    alloc: Global,
    input: &[u8],
    order: &Order,
) -> Result<Answered, RunError>
    ensures output { IfOk result (λ answered. IsOutput order.now input.now (string_bytes answered.text)) }
    ensures outcome { IfOk result (λ answered. HasOutcome order.now input.now (string_bytes answered.text) answered.outcome) }
    ensures error { IfErr result (IsOutputError order.now input.now) }
{
    match order {
        Order::Judge(judging) => judge(rt, alloc, input, *judging),
        Order::JudgeLines(judging) => judge_each(rt, alloc, input, *judging),
        Order::Check(workers) => Ok(Answered::met(checked(rt, alloc, input, *workers)?)),
        Order::Explain(form) => Ok(Answered::met(explained(rt, alloc, input, *form)?)),
        Order::ExplainLong(form) => Ok(Answered::met(explained_long(rt, alloc, input, *form)?)),
        Order::ListFaults(listing) => Ok(Answered::met(listed(rt, alloc, input, *listing)?)),
        Order::Refute(Length::Limited) => Ok(Answered::met(refute(alloc, input)?)),
        Order::Refute(Length::Any) => Ok(Answered::met(refute_long(alloc, input)?)),
        Order::Replay => Ok(Answered::met(replay(alloc, input)?)),
        Order::Drive(drive) => Ok(Answered::met(drive_input(rt, alloc, input, *drive)?)),
    }
}

// The line on a certificate, whose pieces this many workers check.
fn checked<T: Threads + Wait + Sync>(
    rt: &T,
    alloc: Global,
    input: &[u8],
    workers: Workers,
) -> Result<String, RunError>
    ensures output { IfOk result (λ text. IsOutput (Order.Check workers) input.now (string_bytes text)) }
    ensures error { IfErr result (IsOutputError (Order.Check workers) input.now) }
{
    let work = WorkerThreads::of(rt, workers);
    check(&work, alloc, input)
}

// What is found of a history, in a form.
fn explained<T: Threads + Wait + Sync>(
    rt: &T,
    alloc: Global,
    input: &[u8],
    form: Form,
) -> Result<String, RunError>
    ensures output { IfOk result (λ text. IsOutput (Order.Explain form) input.now (string_bytes text)) }
    ensures error { IfErr result (IsOutputError (Order.Explain form) input.now) }
{
    let work = WorkerThreads::of(rt, Workers::usual());
    explain_as(&work, alloc, input, form)
}

// The same of a memory history of any length.
fn explained_long<T: Threads + Wait + Sync>(
    rt: &T,
    alloc: Global,
    input: &[u8],
    form: LongForm,
) -> Result<String, RunError>
    ensures output { IfOk result (λ text. IsOutput (Order.ExplainLong form) input.now (string_bytes text)) }
    ensures error { IfErr result (IsOutputError (Order.ExplainLong form) input.now) }
{
    let work = WorkerThreads::of(rt, Workers::usual());
    explain_long(&work, alloc, input, form)
}

// The list of the reads of a history that show a fault.
fn listed<T: Threads + Wait + Sync>(
    rt: &T,
    alloc: Global,
    input: &[u8],
    listing: Listing,
) -> Result<String, RunError>
    ensures output { IfOk result (λ text. IsOutput (Order.ListFaults listing) input.now (string_bytes text)) }
    ensures error { IfErr result (IsOutputError (Order.ListFaults listing) input.now) }
{
    let work = WorkerThreads::of(rt, Workers::usual());
    list_faults(&work, alloc, input, listing)
}

// The report on a history, and what comes of it.
fn judge<T: Threads + Wait + Sync>(
    rt: &T,
    alloc: Global,
    input: &[u8],
    judging: Judging,
) -> Result<Answered, RunError>
    ensures output { IfOk result (λ answered. IsOutput (Order.Judge judging) input.now (string_bytes answered.text)) }
    ensures outcome { IfOk result (λ answered.
        HasOutcome (Order.Judge judging) input.now (string_bytes answered.text) answered.outcome) }
    ensures error { IfErr result (IsOutputError (Order.Judge judging) input.now) }
{
    let expected = judging.expected;
    let work = WorkerThreads::of(rt, judging.workers);
    let mut scratch = Scratch::new(alloc);
    let report = report_on_input(&work, alloc, &mut scratch, input, judging.length)?;
    let text = report_text(alloc, &report);
    let outcome = outcome_of(&report, expected);
    drop(report);
    Ok(Answered {
        text: text?,
        outcome,
    })
}
